// Prints rows with names of any length, and what comes of a line in both profiles, for the programs that try both.
#![tactic(auto)]

use std::io;
use tree::Profile;

// A row as the text that stands for it.
pub fn print_row(rt: &impl Print, row: &[u32; 20]) -> io::Result<()> {
    let start = [
        try_show_rows::digit(row[0]),
        try_show_rows::kind(row[1]),
        try_show_rows::digit(row[11]),
    ];
    rt.write_all(&start)?;
    try_show_rows::print_spelling(rt, row)?;
    print!(rt; ",")
}

// The profile of a call, at the start of a line.
fn print_profile(rt: &impl Print, profile: Profile) -> io::Result<()> {
    match profile {
        Profile::Exact => print!(rt; "  exact "),
        Profile::Folded => print!(rt; "  folded"),
    }
}

// A line, and what comes of it in each profile, unless it is empty or a heading.
pub fn try_both<F: FnMut(Profile) -> io::Result<()>>(
    rt: &impl Print,
    line: &[u8],
    mut try_in: F,
) -> io::Result<()>
    requires { F.IsAlwaysCallable try_in }
{
    rt.write_all(line)?;
    println!(rt;)?;
    if matches!(line.first(), None | Some(b'#')) {
        return Ok(());
    }
    for profile in [Profile::Exact, Profile::Folded] {
        print_profile(rt, profile)?;
        try_in(profile)?;
        println!(rt;)?;
    }
    Ok(())
}
