// Reading an mtree listing into a table, in a profile.
#![tactic(auto)]

ghost use Rattle.listing_read_lines.specs.Contract.{ReadContract};

use table_rules::{Answer, Refusal};
use tree::Profile;

// Reads a listing into the lent words, which are zeroed first and after a refusal: 6, the first faulty line with its
// number, then 12; side 0; or the rows read.
pub fn read(profile: Profile, text: &[u8], table: &mut [u32]) -> Answer
    ensures { ReadContract profile text.now table.old result table.new }
{
    listing_read_lines::zero(table);
    if listing_read_lines::has_form(text) {
        let answer = listing_read_lines::read_lines(profile, text, table);
        if answer.is_err() {
            listing_read_lines::zero(table);
        }
        return answer;
    }
    Err(Refusal {
        number: 6,
        side: 0,
        place: 0,
    })
}
