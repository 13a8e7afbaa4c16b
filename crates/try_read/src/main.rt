// Tries the reading of listings: those that another tool made (LISTINGS.md), and texts at the edges of each rule. A line of the
// input is a case, which is printed with what came of it: the answer's number, side and place, the sum of the rows, and whether
// the words past them are zero; a row that is printed has a line of its own. A line that begins with # is a heading.
// The cases are those of `try_texts`, and the words in each are the room that is lent: they hold something else before the
// call.
#![tactic(auto)]

use std::io;
use std::rt::Files;
use tree::Profile;

// Reads a text into a table, and tells what came of it.
fn tell(rt: &impl Print, line: &[u8], text: &[u8], table: &mut [u32]) -> io::Result<()> {
    table.fill(try_show::CANARY);
    try_show::print_case(rt, line)?;
    let rows = try_reading::tell_read(rt, Profile::Exact, text, table)?;
    try_read_rows::tell_rows(rt, table, rows)
}

// With only the first words of a table lent.
fn tell_within(
    rt: &impl Print,
    line: &[u8],
    text: &[u8],
    table: &mut [u32],
    words: usize,
) -> io::Result<()> {
    match table.get_mut(..words) {
        Some(lent) => tell(rt, line, text, lent),
        None => Ok(()),
    }
}

// A case.
fn try_case(rt: &(impl Files + Print), line: &[u8]) -> io::Result<()> {
    let mut text = [0u8; 65600];
    let mut table = [0u32; 82000];
    let n = try_texts::make(rt, line, &mut text);
    tell_within(rt, line, &text[..n], &mut table, try_fields::count(line, 1))
}

// One line.
fn try_line(rt: &(impl Files + Print), line: &[u8]) -> io::Result<()> {
    match line.first() {
        None => Ok(()),
        Some(b'#') => {
            rt.write_all(line)?;
            println!(rt;)
        }
        _ => try_case(rt, line),
    }
}

// Every line of the input.
fn main(rt: HostRuntime) -> io::Result<()> {
    try_fields::each_line(&mut rt.stdin(), |line| try_line(&rt, line))
}
