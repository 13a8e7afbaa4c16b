// The sum of some words, how many of them a call left alone, and prints of a case and of its answer, for the programs that
// try the calls.
#![tactic(auto)]

ghost use Rattle.std.specs.Prelude.{◌≤◌, ◌<◌};

use std::io;
use table_rules::Answer;

// What stands in a result before a call.
pub const CANARY: u32 = 0xC0FFEE11;

// A number that depends on every word and its place.
pub fn sum(words: &[u32]) -> u64 {
    let mut s = 0;
    for &word in words {
        s = (31 * s + u64::from(word)) % 4294967291;
    }
    s
}

// How many words or bytes are as they were before a call, when a mark stood there. Counted by a loop: one over a filter takes
// them one at a time.
pub fn kept<T: PartialEq>(all: &[T], mark: &T) -> usize {
    let mut n = 0;
    for x in all {
        if x == mark {
            n += 1;
        }
    }
    n
}

// The line of a case, and a colon.
pub fn print_case(rt: &impl Print, case: &[u8]) -> io::Result<()> {
    rt.write_all(case)?;
    print!(rt; ":")
}

// An answer's number, side and place; the rows written.
pub fn print_answer(rt: &impl Print, answer: Answer) -> io::Result<usize> {
    match answer {
        Ok(place) => {
            print!(rt; " 0 0 {place}")?;
            Ok(place)
        }
        Err(refusal) => {
            print!(rt; " {} {} {}", refusal.number, refusal.side, refusal.place)?;
            Ok(0)
        }
    }
}
