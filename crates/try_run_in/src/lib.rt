// One reconciliation in a profile with buffers of its own, and what is answered and left.
#![tactic(auto)]

ghost use Rattle.std.specs.Prelude.{◌≤◌};

use std::io;
use tree::Profile;

// A run that has ROOM words for each table and LIST for the list; rows are printed as the caller says.
pub fn run_on<
    const ROOM: usize,
    const LIST: usize,
    P: Print,
    F: Fn(&P, &[u32; 20]) -> io::Result<()>,
>(
    rt: &P,
    profile: Profile,
    line: &[u8],
    o: &[u32],
    l: &[u32],
    r: &[u32],
    print_row: F,
) -> io::Result<()>
    requires { (ROOM ≤ 81980) × (LIST ≤ 24600) × F.IsAlwaysCallable print_row }
{
    let mut archive = [try_show::CANARY; ROOM];
    let mut left = [try_show::CANARY; ROOM];
    let mut right = [try_show::CANARY; ROOM];
    let mut list = [try_show::CANARY; LIST];
    let n = try_run::tell_run(
        rt,
        profile,
        line,
        o,
        l,
        r,
        &mut archive,
        &mut left,
        &mut right,
        &mut list,
    )?;
    try_show_rows::print_results(
        rt,
        [(&archive, n.archive), (&left, n.left), (&right, n.right)],
        print_row,
    )
}
