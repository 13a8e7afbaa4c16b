// One case of the check and of the rows to carry, in a profile.
#![tactic(auto)]

use std::io;
use tree::Profile;

// The answer to the table of a line.
fn tell_check(rt: &impl Print, profile: Profile, line: &[u8], table: &mut [u32]) -> io::Result<()> {
    let n = try_spelled::fill(line, 1, table);
    try_case::tell_check(rt, profile, &table[..n])
}

// A line `check`.
pub fn try_check(rt: &impl Print, profile: Profile, line: &[u8]) -> io::Result<()> {
    let mut table = [0u32; 81980];
    tell_check(rt, profile, line, &mut table)
}

// A line `entry`.
pub fn try_entry(rt: &impl Print, profile: Profile, line: &[u8]) -> io::Result<()> {
    let mut left = [0u32; 400];
    let n = try_spelled::fill(line, 1, &mut left);
    let mut right = [0u32; 400];
    let m = try_spelled::fill(line, 2, &mut right);
    try_case::tell_entry(
        rt,
        profile,
        line,
        &left[..n],
        &right[..m],
        try_show_spelled::print_row,
    )
}
