// What comes of one case of the check, of the rows to carry and of a move, in a profile; rows are printed as the caller says.
#![tactic(auto)]

use std::io;
use tree::Profile;

// The answer to a table.
pub fn tell_check(rt: &impl Print, profile: Profile, table: &[u32]) -> io::Result<()> {
    try_show::print_answer(rt, table_answers::check_table(profile, table))?;
    Ok(())
}

// The rows that are carried from a row to the other, by the kind and the rows in fields 3, 4 and 5 of a line.
pub fn tell_entry<P: Print, F: Fn(&P, &[u32; 20]) -> io::Result<()>>(
    rt: &P,
    profile: Profile,
    line: &[u8],
    left: &[u32],
    right: &[u32],
    print_row: F,
) -> io::Result<()>
    requires { F.IsAlwaysCallable print_row }
{
    let kind = try_fields::small(line, 3);
    let left_row = try_fields::small(line, 4);
    let right_row = try_fields::small(line, 5);
    let rows = table_carry::carried(profile, left, right, kind, left_row, right_row);
    print!(rt; " {}", rows.len() / 20)?;
    try_show_rows::print_rows(rt, rows, print_row)?;
    print!(rt; " {}", try_show::sum(rows))
}

// A move with the first words of a room.
pub fn tell_move<P: Print, F: Fn(&P, &[u32; 20]) -> io::Result<()>>(
    rt: &P,
    profile: Profile,
    target: &[u32],
    source: &[u32],
    names: [[u32; 8]; 16],
    depth: u32,
    res: &mut [u32],
    room: usize,
    print_row: F,
) -> io::Result<()>
    requires { F.IsAlwaysCallable print_row }
{
    let Some(lent) = res.get_mut(..room) else {
        return Ok(());
    };
    let answer = table_move::make_move(profile, target, source, names, depth, lent);
    let rows = try_show::print_answer(rt, answer)?;
    try_show_rows::print_result(rt, res, rows, print_row)
}
