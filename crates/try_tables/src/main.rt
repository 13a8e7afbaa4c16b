// Tries the check of a table and the rows to carry at the edges of each rule. A line of the input is a case, which is printed
// with what came of it: the answer's number, side and place; the count of rows to carry, the rows and their sum.
//   check TABLE WORDS N CHANGES  the first words of a table, with n changes
//   large ROWS N CHANGES         a root and its files, with n changes
//   entry LEFT RIGHT KIND LEFTROW RIGHTROW
// A change is FROM TO VALUE: the words from one place to another become a value.
#![tactic(auto)]

use std::io;
use tree::Profile;

// A line `entry`.
fn try_entry(rt: &impl Print, line: &[u8]) -> io::Result<()> {
    let mut left = [0u32; 400];
    let n = try_sample::fill(line, 1, &mut left);
    let mut right = [0u32; 400];
    let m = try_sample::fill(line, 2, &mut right);
    try_show::print_case(rt, line)?;
    try_case::tell_entry(
        rt,
        Profile::Exact,
        line,
        &left[..n],
        &right[..m],
        try_show_rows::print_small,
    )?;
    println!(rt;)
}

// One line, by its first letter.
fn try_line(rt: &impl Print, line: &[u8]) -> io::Result<()> {
    match line.first() {
        Some(b'c') => try_check::try_check(rt, line),
        Some(b'l') => try_check::try_large(rt, line),
        Some(b'e') => try_entry(rt, line),
        _ => Ok(()),
    }
}

// Every line of the input.
fn main(rt: HostRuntime) -> io::Result<()> {
    try_fields::each_line(&mut rt.stdin(), |line| try_line(&rt, line))
}
