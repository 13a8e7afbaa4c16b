// The rooms that a line may give a reconciliation, and prints of its answer, its tally and its list.
#![tactic(auto)]

ghost use Rattle.std.specs.Prelude.{◌≤◌};

use plan_run::{Counts, Ran};
use std::io;

// What a refused run leaves in the buffers.
const NONE: Counts = Counts {
    archive: 0,
    left: 0,
    right: 0,
    list: 0,
};

// The words of a room: those in field k of a line, or all of it where the line has no such field.
pub fn room(line: &[u8], k: usize, most: usize) -> usize
    ensures { result ≤ most }
{
    if try_fields::rest(line, k).is_empty() {
        return most;
    }
    try_fields::count(line, k).min(most)
}

// What was answered, and the tally; the rows and entries that are left.
pub fn print_ran(rt: &impl Print, ran: Ran) -> io::Result<Counts> {
    try_show::print_answer(rt, ran.answer.map(|_| 0))?;
    let n = ran.answer.unwrap_or(NONE);
    print!(rt; " counts {} {} {} {}", n.archive, n.left, n.right, n.list)?;
    let t = ran.tally;
    print!(rt; " tally {} {} {}", t.left, t.right, t.clash)?;
    Ok(n)
}

// Each of some words.
fn print_words(rt: &impl Print, words: &[u32]) -> io::Result<()> {
    for word in words {
        print!(rt; " {word}")?;
    }
    Ok(())
}

// The first words of a list, or their sum where they are many, and how many past them are kept.
pub fn print_list(rt: &impl Print, list: &[u32], entries: usize) -> io::Result<()> {
    if list.len() / 3 < entries {
        return Ok(());
    }
    let n = 3 * entries;
    print!(rt; " list")?;
    if entries < 10 {
        print_words(rt, &list[..n])?;
    } else {
        print!(rt; " {}", try_show::sum(&list[..n]))?;
    }
    print!(rt; " {}", try_show::kept(&list[n..], &try_show::CANARY))
}
