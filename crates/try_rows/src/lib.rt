// Rows put into a table one by one or many at once, and words set, for the programs that try the calls.
#![tactic(auto)]

ghost use Rattle.std.specs.Prelude.{◌≡◌, ◌≤◌, ◌<◌, length};

// The number of a byte: `0` is 0, `@` is 16 and `A` is 17.
pub fn digit(b: u8) -> u32 {
    u32::from(b).saturating_sub(48)
}

// The first word of a name of one byte.
pub fn name_of(b: u8) -> u32 {
    if b == b'_' {
        0
    } else {
        u32::from_be_bytes([b, 0, 0, 0])
    }
}

// Row i of a table, the other words left as they are.
pub fn put_row(table: &mut [u32], i: usize, depth: u32, kind: u32, name: u32, size: u32)
    ensures { length table.new ≡ length table.old }
{
    if let Some(row) = table.as_chunks_mut::<20>().0.get_mut(i) {
        row[0] = depth;
        row[1] = kind;
        row[2] = name;
        row[11] = size;
    }
}

// The name of row i among many, greater than those of the rows before it.
pub fn numbered(i: u32) -> u32 {
    16777216 * (64 + i / 64 % 128) + 65536 * (64 + i % 64)
}

// A root and n - 1 files in it; their words, none where there is no room.
pub fn fill_many(table: &mut [u32], n: u32) -> usize
    ensures { (result ≤ length table.old) × (length table.new ≡ length table.old) }
{
    let words = 20 * (n as usize);
    if table.len() < words {
        return 0;
    }
    for i in 1..n {
        put_row(table, i as usize, 1, 1, numbered(i), i);
    }
    words
}

// The words from one place to another become a value, as far as there are words.
pub fn set_words(table: &mut [u32], from: usize, to: usize, value: u32)
    ensures { length table.new ≡ length table.old }
{
    let end = to.min(table.len());
    if from < end {
        table[from..end].fill(value);
    }
}
