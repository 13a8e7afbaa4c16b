// One text read in a profile, and the table written again.
#![tactic(auto)]

use std::io;
use std::rt::Files;
use tree::Profile;

// Whether the words are zero.
fn print_zeros(rt: &impl Print, words: &[u32]) -> io::Result<()> {
    if table_names::all_zero(words) {
        print!(rt; " zeros")
    } else {
        print!(rt; " NOT ZEROS")
    }
}

// The rows that were read, what is past them, and the rows written again.
fn tell_rows(rt: &impl Print, profile: Profile, table: &[u32], rows: usize) -> io::Result<()> {
    if table.len() / 20 < rows {
        return Ok(());
    }
    let (read, past) = table.split_at(20 * rows);
    if rows < 20 {
        try_show_rows::print_rows(rt, read, try_show_spelled::print_row)?;
    }
    print!(rt; " {}", try_show::sum(read))?;
    print_zeros(rt, past)?;
    if 0 < rows {
        print!(rt; "\n   written")?;
        try_written::tell_write(rt, profile, read, 65536)?;
    }
    Ok(())
}

// A text read into a table, which is marked.
fn tell_read(rt: &impl Print, profile: Profile, text: &[u8], table: &mut [u32]) -> io::Result<()> {
    let rows = try_reading::tell_read(rt, profile, text, table)?;
    tell_rows(rt, profile, table, rows)
}

// A text read into the first words of a table.
fn read_in(
    rt: &impl Print,
    profile: Profile,
    text: &[u8],
    table: &mut [u32],
    words: usize,
) -> io::Result<()> {
    match table.get_mut(..words) {
        Some(lent) => tell_read(rt, profile, text, lent),
        None => Ok(()),
    }
}

// A line `text` or `many`.
pub fn try_read(rt: &(impl Files + Print), profile: Profile, line: &[u8]) -> io::Result<()> {
    let mut text = [0u8; 65600];
    let mut table = [try_show::CANARY; 82000];
    let n = try_texts::make(rt, line, &mut text);
    read_in(
        rt,
        profile,
        &text[..n],
        &mut table,
        try_fields::count(line, 1),
    )
}
