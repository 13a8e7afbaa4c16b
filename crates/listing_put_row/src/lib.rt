// A row put into the table, where the state of reading says.
#![tactic(auto)]

ghost use Rattle.std.specs.Prelude.{◌≡◌, ◌-◌, ◌*◌, ◌<◌, ltb};
ghost use Rattle.table_row.specs.Tree.{file_row};
ghost use Rattle.listing.specs.Reading.{most_rows};
ghost use Rattle.listing_reader.specs.State.{Ready};
ghost use Rattle.listing_reader.specs.Does.{IsContent, Places};

use listing_reader::Reader;
use tree::Profile;

// A row of that depth, name and content.
fn row_of(depth: usize, n: [u32; 8], c: [u32; 11]) -> [u32; 20]
    requires { depth < 17 }
    ensures { result ≡ file_row depth n c }
{
    let mut r = [0; 20];
    r[0] = depth as u32;
    r[1] = c[0];
    table_row::copy_words(&n, &mut r, 2);
    table_row::copy_words(&c[1..], &mut r, 10);
    r
}

// A row more is within the room and the limit.
fn has_room(count: usize, words: usize) -> bool
    ensures { result ≡ ltb count (most_rows words) }
{
    count < usize::min(4096, words / 20)
}

// An entry put into the folder last opened: 14, 13 by key, 3. Table and state are no struct: `Takes` and `Places` say of each what
// it was and is. An entry's content is eleven words, as the definition `Content` has it.
pub fn put_row(
    profile: Profile,
    t: &mut [u32],
    s: Reader,
    name: [u32; 8],
    c: [u32; 11],
) -> Result<Reader, u32>
    requires { Ready profile t.old s × (0 < s.depth) × IsContent c }
    ensures { Places profile name c t.old s t.new result }
{
    let depth = s.depth;
    if depth == 17 {
        return Err(14);
    }
    let k = depth - 1;
    let end = 20 * s.count;
    match table_slot::find_spot(profile, &t[..end], s.folders[k], s.last, name) {
        None => Err(13),
        Some(i) => {
            if has_room(s.count, t.len()) {
                table_slot::insert(t, s.count, i, row_of(depth, name, c));
                return Ok(s.enter(i, c[0]));
            }
            Err(3)
        }
    }
}
