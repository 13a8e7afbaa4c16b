// Small tables written as text, for the programs that try the calls. A table is a field with five bytes a row, as in
// `0d_0,1fa5,`: depth, kind (d, f or another), first byte of the name (_ for none), low word of the size, and a comma.
#![tactic(auto)]

ghost use Rattle.std.specs.Prelude.{◌≡◌, ◌≤◌, ◌<◌, length};

// The kind of a byte: d is a folder, f a file, and any other a kind that there is not.
fn kind_of(b: u8) -> u32 {
    match b {
        b'd' => 0,
        b'f' => 1,
        _ => 2,
    }
}

// The rows of the table in field k of a line, at the start of a table; their words.
pub fn fill(line: &[u8], k: usize, table: &mut [u32]) -> usize
    ensures { (result ≤ length table.old) × (length table.new ≡ length table.old) }
{
    let mut words = 0;
    for &[depth, kind, name, size, _] in try_fields::rest(line, k).as_chunks::<5>().0 {
        if depth < b'0' || table.len() - words < 20 {
            break;
        }
        try_rows::put_row(
            table,
            words / 20,
            try_rows::digit(depth),
            kind_of(kind),
            try_rows::name_of(name),
            try_rows::digit(size),
        );
        words += 20;
    }
    words
}
