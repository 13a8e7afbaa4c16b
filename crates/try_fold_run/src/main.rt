// Tries a reconciliation in both profiles. A line of the input is a case, which is printed with what came of it where every byte
// counts and where letter case is ignored: number, side, place and counts, the tally, the list's words, and for each result its
// rows, their sum, and how many words past them are kept. A line that begins with # is a heading. Tables are as
// `try_spelled_rows` says.
//   run ARCHIVE LEFT RIGHT [ROOM ROOM ROOM ROOM]  the rooms are words, of archive, left, right and list; with none given there
//                                                 is room for more than 4,096 rows
#![tactic(auto)]

use std::io;

// Every line of the input, in both profiles.
fn main(rt: HostRuntime) -> io::Result<()> {
    try_fields::each_line(&mut rt.stdin(), |line| {
        try_show_spelled::try_both(&rt, line, |profile| {
            try_run_spelled::try_run(&rt, profile, line)
        })
    })
}
