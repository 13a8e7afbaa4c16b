// One case of writing in a profile: a table, the room that is lent, and the answer, the text and what is left of the room.
#![tactic(auto)]

use std::io;
use tree::Profile;

// What stands in a text before it is written.
const MARK: u8 = b'~';

// The bytes of a text, in brackets.
fn print_text(rt: &impl Print, text: &[u8]) -> io::Result<()> {
    print!(rt; " [")?;
    for &b in text {
        rt.write_all(&[if b == b'\n' { b'|' } else { b }])?;
    }
    print!(rt; "]")
}

// A table written into the first bytes of a text, which is marked.
fn tell_written(
    rt: &impl Print,
    profile: Profile,
    table: &[u32],
    text: &mut [u8],
    room: usize,
) -> io::Result<()> {
    let Some(lent) = text.get_mut(..room) else {
        return Ok(());
    };
    let bytes = try_show::print_answer(rt, listing_write::write(profile, table, lent))?;
    if text.len() < bytes {
        return Ok(());
    }
    let (written, past) = text.split_at(bytes);
    print_text(rt, written)?;
    print!(rt; " {}", try_show::kept(past, &MARK))
}

// A table written into a text of its own.
pub fn tell_write(rt: &impl Print, profile: Profile, table: &[u32], room: usize) -> io::Result<()> {
    let mut text = [MARK; 65600];
    tell_written(rt, profile, table, &mut text, room)
}

// A line `write`.
pub fn try_write(rt: &impl Print, profile: Profile, line: &[u8]) -> io::Result<()> {
    let mut table = [0u32; 400];
    let n = try_spelled::fill(line, 1, &mut table);
    tell_write(rt, profile, &table[..n], try_fields::count(line, 2))
}
