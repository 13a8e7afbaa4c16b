// Tables with every byte that a name may hold, with sizes at their limits, and with a path of depth 16.
#![tactic(auto)]

ghost use Rattle.std.specs.Prelude.{◌<◌};

// Byte j of all that a name may hold, 1 to 255 but 47; zero past them.
fn byte(j: u8) -> u8 {
    match j {
        0..46 => j + 1,
        46..254 => j + 2,
        _ => 0,
    }
}

// Four of them in a word.
fn four(j: u8) -> u32
    requires { j < 253 }
{
    u32::from_be_bytes([byte(j), byte(j + 1), byte(j + 2), byte(j + 3)])
}

// The row of file k: four of them stand before the folders, and four after.
fn row_of(k: usize) -> usize
    requires { k < 8 }
    ensures { result < 26 }
{
    if k < 4 { k + 1 } else { k + 18 }
}

// Eight files, whose names and digests hold those bytes.
pub fn fill_files(table: &mut [u32; 520]) {
    for i in 0..64 {
        let at = 20 * row_of(i / 8);
        let word = four(4 * (i as u8));
        table[at] = 1;
        table[at + 1] = 1;
        table[at + 2 + i % 8] = word;
        table[at + 12 + i % 8] = word;
    }
}

// The size of file k.
fn set_size(table: &mut [u32; 520], k: usize, high: u32, low: u32)
    requires { k < 8 }
{
    let at = 20 * row_of(k);
    table[at + 10] = high;
    table[at + 11] = low;
}

// 0, 9, 10, 99, 100, 2^32 - 1, 2^32 and 2^64 - 1.
pub fn fill_sizes(table: &mut [u32; 520]) {
    set_size(table, 1, 0, 9);
    set_size(table, 2, 0, 10);
    set_size(table, 3, 0, 99);
    set_size(table, 4, 0, 100);
    set_size(table, 5, 0, 0xFFFFFFFF);
    set_size(table, 6, 1, 0);
    set_size(table, 7, 0xFFFFFFFF, 0xFFFFFFFF);
}

// A folder `empty`, then sixteen folders `p`, one in the other.
pub fn fill_folders(table: &mut [u32; 520]) {
    table[100] = 1;
    table[102] = 0x656D7074;
    table[103] = 0x79000000;
    for d in 1..=16 {
        let at = 20 * (d + 5);
        table[at] = d as u32;
        table[at + 2] = 0x70000000;
    }
}
