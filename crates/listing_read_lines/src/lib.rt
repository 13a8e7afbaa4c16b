// The lines of a text read one by one, a text's form, and the answer at its end.
#![tactic(auto)]

ghost use Rattle.std.specs.Prelude.{◌≡◌, length};
ghost use Rattle.listing.specs.Lines.{lines};
ghost use Rattle.listing.specs.Entries.{Said.none};
ghost use Rattle.listing.specs.Reading.{State.before, has_form, most_rows, run};
ghost use Rattle.listing_reader.specs.State.{zeroed};
ghost use Rattle.listing_read_lines.specs.Contract.{RanLines, Ends};

use listing_reader::Reader;
use table_rules::{Answer, Refusal};
use tree::Profile;

// Every word of a table zero.
pub fn zero(t: &mut [u32])
    ensures { t.new ≡ zeroed (length t.old) }
{
    t.fill(0);
}

// A text is not too long and, unless it is empty, ends in LF.
#[tactic(auto, using(crate::proofs::Ended::form_rules))]
pub fn has_form(text: &[u8]) -> bool
    ensures { result ≡ has_form text.now }
{
    let n = text.len();
    if 65536 < n {
        return false;
    }
    if n == 0 {
        return true;
    }
    text[n - 1] == 10
}

// After the last line: 12, or the rows read.
fn answer_at_end(s: Reader) -> Answer
    ensures { Ends s result }
{
    if s.count == 0 {
        return Err(Refusal {
            number: 12,
            side: 0,
            place: 0,
        });
    }
    Ok(s.count)
}

// The lines of a text, up to the first faulty one, into a table of zeros.
pub fn read_lines(profile: Profile, text: &[u8], t: &mut [u32]) -> Answer
    requires { t.old ≡ zeroed (length t.old) }
    ensures { RanLines (run profile (most_rows (length t.old)) (lines text.now) (before none)) (length t.old) result t.new }
{
    let mut s = Reader::fresh();
    let mut i: usize = 0;
    let mut line: usize = 1;
    // A `while`, since a step is a line.
    while i < text.len() {
        let e = listing_scan::line_end(text, i);
        match listing_take_line::take_line(profile, &text[i..e], t, s) {
            Ok(next) => s = next,
            Err(number) => {
                return Err(Refusal {
                    number,
                    side: 0,
                    place: line,
                });
            }
        }
        line += listing_scan::line_ends(&text[i..e]);
        i = e;
    }
    answer_at_end(s)
}
