// A file's text read, and what is printed for one that is refused.
#![tactic(auto)]

ghost use Rattle.std.specs.Prelude.{◌≡◌, ◌≤◌, length};
ghost use Rattle.listing_spell.specs.Puts.{Puts, Wrote};
ghost use Rattle.printout_text.specs.Printed.{file_read, refused_text};
ghost use Rattle.printout_text.specs.Tables.{Loaded};

use listing_spell::Text;
use table_rules::{Answer, Refusal};
use tree::Profile;

// A file's text read into a table of 128 rows: more than 16,384 bytes are 6.
pub fn read_file(profile: Profile, text: &[u8], table: &mut [u32]) -> Answer
    requires { length table.old ≡ 2560 }
    ensures { Loaded profile (file_read profile text.now) result table.new }
{
    if 16384 < text.len() {
        return Err(Refusal {
            number: 6,
            side: 0,
            place: 0,
        });
    }
    listing_read::read(profile, text, table)
}

// The words of a refused file's line.
fn put_words(text: &mut Text, file: &[u8], refusal: Refusal)
    requires { (length file.now ≤ 7) × (text.old.at ≡ 0) }
    ensures { Wrote text.old (refused_text file.now refusal.number refusal.place) 58 text.new }
{
    text.put_all(b"refused ");
    text.put_all(file);
    text.put_all(b" ");
    listing_numbers::put_decimal(text, u64::from(refusal.number));
    text.put_all(b" ");
    listing_numbers::put_decimal(text, refusal.place as u64);
    text.put_all(b"\n");
}

// The one line of a refused file, in lent bytes from the first one on.
pub fn put_refused(out: &mut [u8], file: &[u8], refusal: Refusal) -> usize
    requires { length file.now ≤ 7 }
    ensures { Puts out.old 0 (refused_text file.now refusal.number refusal.place) 58 result out.new }
{
    let mut text = Text { out, at: 0 };
    put_words(&mut text, file, refusal);
    text.at
}
