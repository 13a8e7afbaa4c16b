// One case of a move: two tables, a path, and what is answered and left.
#![tactic(auto)]

use std::io;
use tree::Profile;

// The slot of a byte: a name of that byte, or one of three that no path may have within its depth.
fn slot_of(b: u8) -> [u32; 8] {
    match b {
        b'^' => [0x2E2E0000, 0, 0, 0, 0, 0, 0, 0],
        b'!' => [0x61006100, 0, 0, 0, 0, 0, 0, 0],
        b'~' => [0, 0, 0, 0, 0, 0, 0, 1],
        _ => [try_rows::name_of(b), 0, 0, 0, 0, 0, 0, 0],
    }
}

// The path in field k of a line.
fn path_of(line: &[u8], k: usize) -> [[u32; 8]; 16] {
    try_spelling::slots(try_fields::field(line, k).iter().map(|&b| slot_of(b)))
}

// A line, and its move with the first words of a room.
pub fn tell_move(
    rt: &impl Print,
    line: &[u8],
    target: &[u32],
    source: &[u32],
    names: [[u32; 8]; 16],
    depth: u32,
    res: &mut [u32],
    room: usize,
) -> io::Result<()> {
    if res.len() < room {
        return Ok(());
    }
    try_show::print_case(rt, line)?;
    try_case::tell_move(
        rt,
        Profile::Exact,
        target,
        source,
        names,
        depth,
        res,
        room,
        try_show_rows::print_small,
    )?;
    println!(rt;)
}

// A line `move`.
pub fn try_move(rt: &impl Print, line: &[u8]) -> io::Result<()> {
    let mut target = [0u32; 400];
    let n = try_sample::fill(line, 1, &mut target);
    let mut source = [0u32; 400];
    let m = try_sample::fill(line, 2, &mut source);
    let names = path_of(line, 3);
    let depth = try_fields::small(line, 4);
    let mut result = [try_show::CANARY; 500];
    let room = try_fields::count(line, 5);
    tell_move(
        rt,
        line,
        &target[..n],
        &source[..m],
        names,
        depth,
        &mut result,
        room,
    )
}
