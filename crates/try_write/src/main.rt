// Writes a listing with every byte that a name may hold, sizes at their limits, an empty folder and a path of depth 16,
// and tells the answers as comments: this one's, for one byte too few, for a bad row, and for a word too few.
#![tactic(auto)]

ghost use Rattle.std.specs.Prelude.{◌≡◌, ◌<◌, length};

use std::io;
use tree::Profile;

// Writes a table into the lent bytes, prints the text, and tells the answer, a number, a side and a place; the bytes written.
fn show(rt: &impl Print, table: &[u32], text: &mut [u8]) -> io::Result<usize> {
    let answer = listing_write::write(Profile::Exact, table, text);
    if let Some(written) = text.get(..answer.unwrap_or(0)) {
        rt.write_all(written)?;
    }
    print!(rt; "#")?;
    let bytes = try_show::print_answer(rt, answer)?;
    println!(rt;)?;
    Ok(bytes)
}

// With only the first n bytes lent.
fn show_within(rt: &impl Print, table: &[u32], text: &mut [u8], n: usize) -> io::Result<()> {
    if let Some(lent) = text.get_mut(..n) {
        show(rt, table, lent)?;
    }
    Ok(())
}

// A table that keeps the rules, in room and with one byte too few, then a word too few and a depth too many.
fn show_each(rt: &impl Print, table: &mut [u32], text: &mut [u8]) -> io::Result<()>
    requires { length table.old ≡ 520 }
{
    let n = show(rt, table, text)?;
    if n == 0 {
        return Ok(());
    }
    show_within(rt, table, text, n - 1)?;
    show(rt, &table[..519], text)?;
    table[40] = 3;
    show(rt, table, text)?;
    Ok(())
}

// The listing, and then the refusals.
fn main(rt: HostRuntime) -> io::Result<()> {
    let mut table = [0u32; 520];
    try_write_tables::fill_files(&mut table);
    try_write_tables::fill_sizes(&mut table);
    try_write_tables::fill_folders(&mut table);
    let mut text = [0u8; 4096];
    show_each(&rt, &mut table, &mut text)
}
