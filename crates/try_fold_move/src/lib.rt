// One case of a move in a profile.
#![tactic(auto)]

use std::io;
use tree::Profile;

// A move on the tables of a line.
fn tell_move(
    rt: &impl Print,
    profile: Profile,
    line: &[u8],
    target: &mut [u32],
    source: &mut [u32],
    res: &mut [u32],
) -> io::Result<()> {
    let n = try_spelled::fill(line, 1, target);
    let m = try_spelled::fill(line, 2, source);
    try_case::tell_move(
        rt,
        profile,
        &target[..n],
        &source[..m],
        try_spelling::path_of(line, 3),
        try_fields::small(line, 4),
        res,
        try_fields::count(line, 5),
        try_show_spelled::print_row,
    )
}

// A line `move`.
pub fn try_move(rt: &impl Print, profile: Profile, line: &[u8]) -> io::Result<()> {
    let mut target = [0u32; 81980];
    let mut source = [0u32; 81980];
    let mut result = [try_show::CANARY; 81980];
    tell_move(rt, profile, line, &mut target, &mut source, &mut result)
}
