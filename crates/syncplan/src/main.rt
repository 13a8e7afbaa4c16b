// syncplan: three listings in the working directory, the plan on standard output; with --ignore-case where letter case is
// ignored.
#![tactic(auto)]

use std::io;

// The plan of the three listings, or how to ask for it.
fn main(rt: HostRuntime) -> io::Result<()> {
    let Some(profile) = syncplan_files::asked(&rt) else {
        return eprintln!(rt; "usage: syncplan [--ignore-case]");
    };
    let mut archive = [0u8; 16385];
    let a = syncplan_files::load(&rt, b"archive.mtree", &mut archive);
    let mut left = [0u8; 16385];
    let b = syncplan_files::load(&rt, b"left.mtree", &mut left);
    let mut right = [0u8; 16385];
    let c = syncplan_files::load(&rt, b"right.mtree", &mut right);
    let mut out = syncplan_files::page();
    let n = printout::print_plan(profile, &mut out, &archive[..a], &left[..b], &right[..c]);
    rt.write_all(&out[..n])
}
