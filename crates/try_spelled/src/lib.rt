// Tables of rows with names of any length, made from a field, for the programs that try both profiles.
#![tactic(auto)]

ghost use Rattle.std.specs.Prelude.{◌≡◌, ◌≤◌, ◌<◌, length};

// Many files.
fn put_many(table: &mut [u32], words: usize, first: u32) -> usize
    requires { (words ≤ length table.old) × (first < 100) }
    ensures { (result ≤ length table.old) × (length table.new ≡ length table.old) }
{
    let mut end = words;
    for i in 0..4090 {
        end = try_spelled_rows::put_file(table, end, i, first);
    }
    end
}

// What a row of a line stands for.
fn put(row: &[u8], table: &mut [u32], words: usize) -> usize
    requires { words ≤ length table.old }
    ensures { (result ≤ length table.old) × (length table.new ≡ length table.old) }
{
    match row.first() {
        None => words,
        Some(b'+') => put_many(table, words, 65),
        Some(b'-') => put_many(table, words, 97),
        _ => try_spelled_rows::put_row(row, table, words),
    }
}

// The rows of the table in field k of a line, at the start of a table of zeros; their words.
pub fn fill(line: &[u8], k: usize, table: &mut [u32]) -> usize
    ensures { (result ≤ length table.old) × (length table.new ≡ length table.old) }
{
    let mut words = 0;
    for row in try_fields::rest(line, k).split(|&b| b == b',') {
        if row.starts_with(b" ") {
            break;
        }
        words = put(row, table, words);
    }
    words
}
