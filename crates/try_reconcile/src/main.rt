// Tries a reconciliation: the named cases with exact rooms, rooms one short, bad tables. A line of the input is a case, which
// is printed with what came of it: number, side, place and counts, the tally, the list's words, and for each result its rows,
// their sum, and how many words past them are kept.
//   CASE ARCHIVE LEFT RIGHT ROOM ROOM ROOM ROOM      the rooms are words, of archive, left, right and list
#![tactic(auto)]

use std::io;
use tree::Profile;

// The tables of a line, and a run on them.
fn try_line(rt: &impl Print, line: &[u8]) -> io::Result<()> {
    let mut o = [0u32; 200];
    let mut l = [0u32; 200];
    let mut r = [0u32; 200];
    let a = try_sample::fill(line, 1, &mut o);
    let b = try_sample::fill(line, 2, &mut l);
    let c = try_sample::fill(line, 3, &mut r);
    try_show::print_case(rt, line)?;
    try_run_in::run_on::<200, 30, _, _>(
        rt,
        Profile::Exact,
        line,
        &o[..a],
        &l[..b],
        &r[..c],
        try_show_rows::print_small,
    )?;
    println!(rt;)
}

// Every line of the input.
fn main(rt: HostRuntime) -> io::Result<()> {
    try_fields::each_line(&mut rt.stdin(), |line| try_line(&rt, line))
}
