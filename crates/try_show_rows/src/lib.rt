// Prints rows and results, for the programs that try the calls.
#![tactic(auto)]

use std::io;

// The digit of a depth or of a size.
pub fn digit(x: u32) -> u8 {
    (48 + x % 64) as u8
}

// A row's kind: d or f.
pub fn kind(x: u32) -> u8 {
    if x == 0 { b'd' } else { b'f' }
}

// The first byte of a name, _ where it has none.
fn letter(word: u32) -> u8 {
    if word == 0 {
        b'_'
    } else {
        word.to_be_bytes()[0]
    }
}

// A row as the five bytes that it is written as in a small table.
pub fn print_small(rt: &impl Print, row: &[u32; 20]) -> io::Result<()> {
    let text = [
        digit(row[0]),
        kind(row[1]),
        letter(row[2]),
        digit(row[11]),
        b',',
    ];
    rt.write_all(&text)
}

// The rows of some words in brackets, each printed as the caller says.
pub fn print_rows<P: Print, F: Fn(&P, &[u32; 20]) -> io::Result<()>>(
    rt: &P,
    words: &[u32],
    print_row: F,
) -> io::Result<()>
    requires { F.IsAlwaysCallable print_row }
{
    print!(rt; " [")?;
    for row in words.as_chunks::<20>().0 {
        print_row(rt, row)?;
    }
    print!(rt; "]")
}

// The rows at the start of a result, a few of them written out, then their sum, and how many words past them are kept.
pub fn print_result<P: Print, F: Fn(&P, &[u32; 20]) -> io::Result<()>>(
    rt: &P,
    res: &[u32],
    rows: usize,
    print_row: F,
) -> io::Result<()>
    requires { F.IsAlwaysCallable print_row }
{
    if res.len() / 20 < rows {
        return Ok(());
    }
    let (table, past) = res.split_at(20 * rows);
    if rows < 20 {
        print_rows(rt, table, print_row)?;
    }
    print!(rt;
        " {} {}",
        try_show::sum(table),
        try_show::kept(past, &try_show::CANARY)
    )
}

// The three new tables of a reconciliation, each with its rows.
pub fn print_results<P: Print, F: Fn(&P, &[u32; 20]) -> io::Result<()>>(
    rt: &P,
    results: [(&[u32], usize); 3],
    print_row: F,
) -> io::Result<()>
    requires { F.IsAlwaysCallable print_row }
{
    for (res, rows) in results {
        print_result(rt, res, rows, &print_row)?;
    }
    Ok(())
}

// A byte of a name: itself, or its two digits after %.
fn print_letter(rt: &impl Print, b: u8) -> io::Result<()> {
    match b {
        b'%' | b',' | b'"' | 0..=32 | 127..=255 => print!(rt; "%{b:02x}"),
        _ => rt.write_all(&[b]),
    }
}

// The bytes of a row's name, up to the zeros that end it.
pub fn print_spelling(rt: &impl Print, row: &[u32; 20]) -> io::Result<()> {
    let bytes = row[2..10].iter().flat_map(|word| word.to_be_bytes());
    for b in bytes.take_while(|&b| b != 0) {
        print_letter(rt, b)?;
    }
    Ok(())
}
