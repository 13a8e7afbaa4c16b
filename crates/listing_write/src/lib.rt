// Writing a table as an mtree listing.
#![tactic(auto)]

ghost use Rattle.std.specs.Prelude.{◌≡◌, ◌-◌, ◌<◌, length};
ghost use Rattle.table_row.specs.Tree.{tree_of};
ghost use Rattle.tree.specs.declared.Profile.{Profile};
ghost use Rattle.table_rules.specs.Keyed.{Passes};
ghost use Rattle.listing.specs.Writing.{text_of};
ghost use Rattle.listing_write.specs.Contract.{fits, text_due, Written, WriteContract};

use table_rules::{Answer, Refusal};
use tree::Profile;

// Whether n bytes are no more than a text may have, nor than are lent.
fn has_room(n: usize, room: usize) -> bool
    ensures { result ≡ fits n room }
{
    n <= 65536 && n <= room
}

// Writes a table that keeps the rules: number 3, or the bytes written. An empty part tells the text's length first.
fn write_fine(table: &[u32], text: &mut [u8]) -> Answer
    requires { (p : Profile) × Passes p table.now }
    ensures { Written (text_due (text_of (tree_of table.now)) (length text.old)) (text_of (tree_of table.now)) text.old result text.new }
{
    let n = listing_rows::put_listing(&mut text[..0], table);
    if has_room(n, text.len()) {
        return Ok(listing_rows::put_listing(text, table));
    }
    Err(Refusal {
        number: 3,
        side: 1,
        place: 0,
    })
}

// Writes a table's listing into the lent bytes: numbers 1, 2 and 16, then 3, all with side 1; the bytes written.
pub fn write(profile: Profile, table: &[u32], text: &mut [u8]) -> Answer
    ensures { WriteContract profile table.now text.old result text.new }
{
    table_answers::check_table(profile, table)?;
    write_fine(table, text)
}
