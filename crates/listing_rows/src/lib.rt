// The rows of a table as lines of a listing.
#![tactic(auto)]

ghost use Rattle.std.specs.Prelude.{◌≡◌, ◌+◌, ◌-◌, ◌*◌, ◌≤◌, ◌<◌, ◌^◌, length, drop};
ghost use Rattle.table_row.specs.Table.{row_at, rows};
ghost use Rattle.listing_spell.specs.Puts.{Puts, Wrote};
ghost use Rattle.listing_content.specs.Rows.{line_of, dots, opened, lines_from, text_by_rows};

use listing_spell::Text;

// The line of row i.
fn put_row(text: &mut Text, t: &[u32], i: usize)
    requires { (20 * i + 20 ≤ length t.now) × (text.old.at + 243 < 2 ^ 64) }
    ensures { Wrote text.old (line_of (row_at t.now i)) 243 text.new }
{
    text.put_name(table_row::name(t, i));
    if table_row::word(t, i, 1) == 0 {
        return text.put_all(b" type=dir\n");
    }
    listing_content::put_content(text, t, i);
}

// `..` for each of the open folders in which nothing of a depth stands.
fn put_dots(text: &mut Text, folders: usize, depth: usize)
    requires { text.old.at + 3 * folders < 2 ^ 64 }
    ensures { Wrote text.old (dots (folders - depth)) (3 * folders) text.new }
{
    // The count has a name, since the invariant is on it.
    for k in depth..folders {
        text.put_all(b"..\n");
    }
}

// The folders that are open after row i.
fn open_after(t: &[u32], i: usize) -> usize
    requires { 20 * i + 20 ≤ length t.now }
    ensures { (result ≡ opened (row_at t.now i)) × (result ≤ 2 ^ 32) }
{
    let d = table_row::wide(table_row::word(t, i, 0));
    if table_row::word(t, i, 1) == 0 {
        d + 1
    } else {
        d
    }
}

// The rows after row 0, and `..` after each folder's last. The bound on the places holds whatever depths the rows have.
fn put_rows(text: &mut Text, t: &[u32])
    requires { (length t.now ≤ 81920) × (text.old.at + 2 ^ 47 < 2 ^ 64) }
    ensures { Wrote text.old (lines_from 1 (drop 1 (rows t.now))) (2 ^ 47) text.new }
{
    let mut folders = 1;
    for i in 1..t.len() / 20 {
        let d = table_row::wide(table_row::word(t, i, 0));
        put_dots(text, folders, d);
        put_row(text, t, i);
        folders = open_after(t, i);
    }
    put_dots(text, folders, 0);
}

// The first line, the root's and those of the rows.
fn put_lines(text: &mut Text, t: &[u32])
    requires { (length t.now ≤ 81920) × (text.old.at ≡ 0) }
    ensures { Wrote text.old (text_by_rows t.now) (2 ^ 48) text.new }
{
    text.put_all(b"#mtree\n. type=dir\n");
    put_rows(text, t);
}

// The whole text in lent bytes, from the first one on.
pub fn put_listing(out: &mut [u8], t: &[u32]) -> usize
    requires { length t.now ≤ 81920 }
    ensures { Puts out.old 0 (text_by_rows t.now) (2 ^ 48) result out.new }
{
    let mut text = Text { out, at: 0 };
    put_lines(&mut text, t);
    text.at
}
