// Tries a move at the edges of each rule. A line of the input is a case, which is printed with what came of it: the answer's
// number, side and place, the rows of the result, their sum, and how many words past them are kept.
//   move TARGET SOURCE PATH DEPTH ROOM  a path has a byte a name
//   add ROWS SOURCE NAME ROOM           a move at a name of a root and its files
#![tactic(auto)]

use std::io;

// One line, by its first letter.
fn try_line(rt: &impl Print, line: &[u8]) -> io::Result<()> {
    match line.first() {
        None => Ok(()),
        Some(b'm') => try_move::try_move(rt, line),
        _ => try_add::try_add(rt, line),
    }
}

// Every line of the input.
fn main(rt: HostRuntime) -> io::Result<()> {
    try_fields::each_line(&mut rt.stdin(), |line| try_line(&rt, line))
}
