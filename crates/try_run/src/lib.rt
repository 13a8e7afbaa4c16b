// One reconciliation in a profile, in rooms that a line may give; its answer, its tally and its list are printed.
#![tactic(auto)]

use plan_run::Counts;
use plan_tally::Tally;
use std::io;
use tree::Profile;

// A run with the rooms of a line, at the start of buffers; the rows and entries that it leaves there.
pub fn tell_run(
    rt: &impl Print,
    profile: Profile,
    line: &[u8],
    o: &[u32],
    l: &[u32],
    r: &[u32],
    archive: &mut [u32],
    left: &mut [u32],
    right: &mut [u32],
    list: &mut [u32],
) -> io::Result<Counts> {
    let a = try_ran::room(line, 4, archive.len());
    let b = try_ran::room(line, 5, left.len());
    let c = try_ran::room(line, 6, right.len());
    let d = try_ran::room(line, 7, list.len());
    let ran = reconcile_plain::reconcile_plain(
        profile,
        o,
        l,
        r,
        &mut archive[..a],
        &mut left[..b],
        &mut right[..c],
        &mut list[..d],
        Tally {
            left: 7,
            right: 8,
            clash: 9,
        },
    );
    let n = try_ran::print_ran(rt, ran)?;
    try_ran::print_list(rt, list, n.list)?;
    Ok(n)
}
