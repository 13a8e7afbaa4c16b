// A file read whole, and what the arguments ask for.
#![tactic(auto)]

ghost use Rattle.std.specs.Prelude.{◌≡◌, ◌≤◌, length, take};
ghost use Rattle.std.specs.Io.{ReadsAtMost};

use std::env::FillError;
use std::rt::{Env, Files};
use std::{fs, io, str};
use tree::Profile;

// A file's bytes, which fill the lent ones where it is as long; so they do where its path is not text.
fn read(rt: &impl Files, path: &[u8], into: &mut [u8]) -> io::Result<usize>
    ensures { ReadsAtMost result into.new }
{
    let Ok(name) = str::from_utf8(path) else {
        return Ok(into.len());
    };
    let mut file = fs::open(rt, name)?;
    read_whole::fill(&mut file, into)
}

// A file's bytes, which fill the lent ones where it is as long; so they do where it is not there or can't be read, as a
// folder.
pub fn load(rt: &impl Files, path: &[u8], into: &mut [u8]) -> usize
    ensures bound { result ≤ length into.new }
    ensures prefix { result ≡ length (take result into.new) }
{
    read(rt, path, into).unwrap_or(into.len())
}

// Room for the plan of any three files.
pub fn page() -> [u8; 1048576]
    ensures { 1048576 ≡ length result }
{
    [0; 1048576]
}

// Whether argument k is there.
fn is_given(rt: &impl Env, k: usize) -> bool {
    let mut word = [0u8; 16];
    !matches!(rt.arg(k, &mut word), Err(FillError::NotPresent))
}

// The profile in which a plan is asked for, by the argument where there is one; none for arguments that the program doesn't
// know.
pub fn asked(rt: &impl Env) -> Option<Profile> {
    if !is_given(rt, 1) {
        return Some(Profile::Exact);
    }
    let mut word = [0u8; 16];
    let e = rt.arg(1, &mut word).unwrap_or(0);
    if !is_given(rt, 2) && &word[..e] == b"--ignore-case".as_slice() {
        return Some(Profile::Folded);
    }
    None
}
