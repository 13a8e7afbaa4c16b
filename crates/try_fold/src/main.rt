// Tries the check of a table, a move and the rows to carry in both profiles. A line of the input is a case, which is printed with
// what came of it where every byte counts and where letter case is ignored. A line that begins with # is a heading. Tables and
// paths are as `try_spelled_rows` and `try_spelling` say.
//   check TABLE                             the answer
//   move TARGET SOURCE PATH DEPTH ROOM      the answer; the result's rows, their sum, and how many words past them are kept
//   entry LEFT RIGHT KIND LEFTROW RIGHTROW  the count of rows to carry, the rows and their sum
#![tactic(auto)]

use std::io;
use tree::Profile;

// A line in a profile, by its first letter.
fn try_in(rt: &impl Print, profile: Profile, line: &[u8]) -> io::Result<()> {
    match line.first() {
        Some(b'c') => try_fold_tables::try_check(rt, profile, line),
        Some(b'm') => try_fold_move::try_move(rt, profile, line),
        _ => try_fold_tables::try_entry(rt, profile, line),
    }
}

// Every line of the input, in both profiles.
fn main(rt: HostRuntime) -> io::Result<()> {
    try_fields::each_line(&mut rt.stdin(), |line| {
        try_show_spelled::try_both(&rt, line, |profile| try_in(&rt, profile, line))
    })
}
