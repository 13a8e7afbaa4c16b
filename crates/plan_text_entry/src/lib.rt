// One entry of a list as text: its mark and its path.
#![tactic(auto)]

ghost use Rattle.std.specs.Prelude.{◌+◌, ◌*◌, ◌≤◌, ◌<◌, ◌^◌, length, drop};
ghost use Rattle.listing_spell.specs.Puts.{Wrote};
ghost use Rattle.plan_text.specs.Text.{mark};
ghost use Rattle.plan_text.specs.Words.{entry_text};

use listing_spell::Text;
use plan_text_path::Sides;

// The mark of a kind, which is a word of the list, as C has it.
fn put_mark(text: &mut Text, kind: u32)
    requires { text.old.at + 1 < 2 ^ 64 }
    ensures { Wrote text.old (mark kind) 1 text.new }
{
    match kind {
        1 => text.put_all(b"<"),
        2 => text.put_all(b">"),
        _ => text.put_all(b"!"),
    }
}

// The line of entry k of a list.
pub fn put_entry(text: &mut Text, list: &[u32], k: usize, s: Sides)
    requires { (3 * k + 3 ≤ length list.now) × (text.old.at + 2 ^ 21 < 2 ^ 64) }
    ensures { Wrote text.old (entry_text s.entry.left.now s.entry.right.now (drop (3 * k) list.now)) (2 ^ 21) text.new }
{
    put_mark(text, list[3 * k]);
    text.put_all(b" ");
    let i = table_row::wide(list[3 * k + 1]);
    let j = table_row::wide(list[3 * k + 2]);
    plan_text_path::put_side(text, s, i, j);
    text.put_all(b"\n");
}
