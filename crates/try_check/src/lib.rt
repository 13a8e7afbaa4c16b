// One case of the check: the table, the words that are changed in it, and the answer.
#![tactic(auto)]

ghost use Rattle.std.specs.Prelude.{◌≡◌, ◌<◌, length};

use std::io;
use tree::Profile;

// The answer to the first n words.
fn tell_check(rt: &impl Print, line: &[u8], words: &[u32], n: usize) -> io::Result<()> {
    let Some(table) = words.get(..n) else {
        return Ok(());
    };
    try_show::print_case(rt, line)?;
    try_case::tell_check(rt, Profile::Exact, table)?;
    println!(rt;)
}

// The changes of a table that stand from field k of a line on.
fn change(line: &[u8], k: usize, table: &mut [u32])
    requires { k < 10 }
    ensures { length table.new ≡ length table.old }
{
    let n = try_fields::count(line, k) % 10;
    for i in 0..n {
        let at = k + 1 + 3 * i;
        let from = try_fields::count(line, at);
        let to = try_fields::count(line, at + 1);
        try_rows::set_words(table, from, to, try_fields::word(line, at + 2));
    }
}

// A line `check`.
pub fn try_check(rt: &impl Print, line: &[u8]) -> io::Result<()> {
    let mut table = [0u32; 400];
    try_sample::fill(line, 1, &mut table);
    change(line, 3, &mut table);
    tell_check(rt, line, &table, try_fields::count(line, 2))
}

// A line `large`.
pub fn try_large(rt: &impl Print, line: &[u8]) -> io::Result<()> {
    let mut table = [0u32; 81960];
    let n = try_rows::fill_many(&mut table, try_fields::small(line, 1));
    change(line, 2, &mut table);
    tell_check(rt, line, &table, n)
}
