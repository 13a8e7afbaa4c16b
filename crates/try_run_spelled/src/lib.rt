// One case of a reconciliation in a profile: the tables of a line, and a run on them.
#![tactic(auto)]

use std::io;
use tree::Profile;

// A run on the tables of a line.
fn run_in(
    rt: &impl Print,
    profile: Profile,
    line: &[u8],
    o: &mut [u32],
    l: &mut [u32],
    r: &mut [u32],
) -> io::Result<()> {
    let a = try_spelled::fill(line, 1, o);
    let b = try_spelled::fill(line, 2, l);
    let c = try_spelled::fill(line, 3, r);
    try_run_in::run_on::<81980, 24600, _, _>(
        rt,
        profile,
        line,
        &o[..a],
        &l[..b],
        &r[..c],
        try_show_spelled::print_row,
    )
}

// A line `run`.
pub fn try_run(rt: &impl Print, profile: Profile, line: &[u8]) -> io::Result<()> {
    let mut o = [0u32; 81980];
    let mut l = [0u32; 81980];
    let mut r = [0u32; 81980];
    run_in(rt, profile, line, &mut o, &mut l, &mut r)
}
