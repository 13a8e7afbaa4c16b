// What a row holds, as the words of a line: a file's size and digest.
#![tactic(auto)]

ghost use Rattle.std.specs.Prelude.{◌≡◌, ◌+◌, ◌-◌, ◌*◌, ◌≤◌, ◌<◌, ◌^◌, length, get_or};
ghost use Rattle.table_row.specs.Table.{row_at, content};
ghost use Rattle.listing_spell.specs.Puts.{Wrote};
ghost use Rattle.listing_content.specs.Rows.{content_text};

use listing_spell::Text;

// The size that row i holds, high word then low.
fn size_at(t: &[u32], i: usize) -> u64
    requires { 20 * i + 20 ≤ length t.now }
    ensures { result ≡ 4294967296 * get_or (row_at t.now i) 10 0 + get_or (row_at t.now i) 11 0 }
{
    4294967296 * u64::from(table_row::word(t, i, 10)) + u64::from(table_row::word(t, i, 11))
}

// The line of a file's row i after its name.
pub fn put_content(text: &mut Text, t: &[u32], i: usize)
    requires { (20 * i + 20 ≤ length t.now) × (text.old.at + 115 < 2 ^ 64) }
    ensures { Wrote text.old (content_text (content (row_at t.now i))) 115 text.new }
{
    text.put_all(b" type=file size=");
    listing_numbers::put_decimal(text, size_at(t, i));
    text.put_all(b" sha256digest=");
    let from = 20 * i + 12;
    let to = from + 8;
    listing_numbers::put_hex(text, &t[from..to]);
    text.put_all(b"\n");
}
