// A row's path as text, in the table of its side.
#![tactic(auto)]

ghost use Rattle.std.specs.Prelude.{◌+◌, ◌*◌, ◌≤◌, ◌<◌, ◌/◌, ◌^◌, length};
ghost use Rattle.listing_spell.specs.Puts.{Wrote};
ghost use Rattle.table_route.specs.Route.{path_of};
ghost use Rattle.plan_text.specs.Text.{path_text};
ghost use Rattle.plan_text.specs.Words.{side_text};

pub mod sides;

use listing_spell::Text;
pub use sides::Sides;

// The path of row i: that of the folder in which it stands, and its name.
fn put_path(text: &mut Text, t: &[u32], i: usize)
    requires { (20 * i + 20 ≤ length t.now) × (text.old.at + 129 * i + 1 < 2 ^ 64) }
    ensures { Wrote text.old (path_text (path_of t.now i)) (129 * i + 1) text.new }
{
    if i == 0 {
        return text.put_all(b".");
    }
    put_path(text, t, table_route::folder_of(t, i));
    text.put_all(b"/");
    text.put_name(table_row::name(t, i));
}

// The path of row i of the left table, or of row j of the right one where the left has no such row.
pub fn put_side(text: &mut Text, s: Sides, i: usize, j: usize)
    requires { text.old.at + 2 ^ 20 < 2 ^ 64 }
    ensures { Wrote text.old (side_text s.entry.left.now s.entry.right.now i j) (2 ^ 20) text.new }
{
    if i < s.left.len() / 20 {
        return put_path(text, s.left, i);
    }
    if j < s.right.len() / 20 {
        put_path(text, s.right, j);
    }
}
