// Tries the reading and the writing of listings in both profiles. A line of the input is a case, which is printed with what came
// of it where every byte counts and where letter case is ignored. A line that begins with # is a heading.
//   text WORDS TEXT, many WORDS COUNT STEP  the texts of `try_texts`, read into so many words: the answer, the rows,
//                                           their sum, and whether the words past them are zero; then what was read, written
//   write TABLE BYTES                       a table as in `try_spelled_rows`, written: the answer, the text in brackets, and how
//                                           many bytes past it are kept
// A line end is printed as |.
#![tactic(auto)]

use std::io;
use std::rt::Files;
use tree::Profile;

// A line in a profile, by its first letter.
fn try_in(rt: &(impl Files + Print), profile: Profile, line: &[u8]) -> io::Result<()> {
    match line.first() {
        Some(b'w') => try_written::try_write(rt, profile, line),
        _ => try_fold_read::try_read(rt, profile, line),
    }
}

// Every line of the input, in both profiles.
fn main(rt: HostRuntime) -> io::Result<()> {
    try_fields::each_line(&mut rt.stdin(), |line| {
        try_show_spelled::try_both(&rt, line, |profile| try_in(&rt, profile, line))
    })
}
