// One case of a move into a root with many files, of tables as long as any.
#![tactic(auto)]

use std::io;

// A line `add`.
pub fn try_add(rt: &impl Print, line: &[u8]) -> io::Result<()> {
    let mut target = [0u32; 81960];
    let n = try_rows::fill_many(&mut target, try_fields::small(line, 1));
    let mut source = [0u32; 40];
    let m = try_sample::fill(line, 2, &mut source);
    let mut names = [[0u32; 8]; 16];
    names[0] = [try_fields::word(line, 3), 0, 0, 0, 0, 0, 0, 0];
    let mut result = [try_show::CANARY; 81980];
    let room = try_fields::count(line, 4);
    try_move::tell_move(
        rt,
        line,
        &target[..n],
        &source[..m],
        names,
        1,
        &mut result,
        room,
    )
}
