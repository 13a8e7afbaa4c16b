// A text read into a table in a profile; its answer is printed.
#![tactic(auto)]

use std::io;
use tree::Profile;

// How many rows were read.
pub fn tell_read(
    rt: &impl Print,
    profile: Profile,
    text: &[u8],
    table: &mut [u32],
) -> io::Result<usize> {
    try_show::print_answer(rt, listing_read::read(profile, text, table))
}
