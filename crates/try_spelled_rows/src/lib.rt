// Rows with names of any length, made from a line, for the programs that try both profiles. A row is its depth, its kind
// (d or f), the low word of its size, its name and a comma, as in `0d0,1f5Day1,`.
#![tactic(auto)]

ghost use Rattle.std.specs.Prelude.{◌≡◌, ◌≤◌, ◌<◌, length};

// The kind of a byte: d is a folder, and any other a file.
fn kind_of(b: u8) -> u32 {
    if b == b'd' { 0 } else { 1 }
}

// A row at a place of a table, whose words are zero.
pub fn put_row(row: &[u8], table: &mut [u32], words: usize) -> usize
    requires { words ≤ length table.old }
    ensures { (result ≤ length table.old) × (length table.new ≡ length table.old) }
{
    let [depth, kind, size, name @ ..] = row else {
        return words;
    };
    if table.len() - words < 20 {
        return words;
    }
    let name = try_spelling::name_of(name);
    let depth = try_rows::digit(*depth);
    let kind = kind_of(*kind);
    let size = try_rows::digit(*size);
    try_rows::put_row(table, words / 20, depth, kind, name[0], size);
    table[words + 2..words + 10].copy_from_slice(&name);
    words + 20
}

// File i of many, its three letters from a first one on.
pub fn put_file(table: &mut [u32], words: usize, i: u32, first: u32) -> usize
    requires { (words ≤ length table.old) × (first < 100) }
    ensures { (result ≤ length table.old) × (length table.new ≡ length table.old) }
{
    if table.len() - words < 20 {
        return words;
    }
    let letters = 65536 * (first + i / 256 % 16) + 256 * (first + i / 16 % 16) + first + i % 16;
    try_rows::put_row(table, words / 20, 1, 1, 256 * letters, i);
    words + 20
}
