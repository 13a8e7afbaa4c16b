// Listings as text, made from a line, for the programs that try the reading of them. A line has fields parted by spaces:
//   text WORDS TEXT         a text: | is a line end, %HH a byte, $ a keyword with a digest
//   pad WORDS BYTES TEXT    the same, brought to a length by a comment
//   many WORDS COUNT STEP   folders in a root, in an order that the step gives
//   file WORDS NAME         a listing in a file
#![tactic(auto)]

ghost use Rattle.std.specs.Prelude.{◌≡◌, ◌≤◌, ◌<◌, length};

use std::rt::Files;
use std::{fs, str};

// A text of n bytes, and a comment that brings it to a length.
fn pad(text: &mut [u8], n: usize, to: usize) -> usize
    requires { n ≤ length text.old }
    ensures { (result ≤ length text.old) × (length text.new ≡ length text.old) }
{
    let start = try_bytes::put(text, n, b"#");
    let end = start + to.saturating_sub(n + 2).min(text.len() - start);
    text[start..end].fill(b'-');
    try_bytes::put(text, end, b"\n")
}

// A letter for the low four bits of a number.
fn letter(i: u32) -> u8 {
    (97 + i % 16) as u8
}

// A root, and folders in it with names of three letters, as far as there is room: folder i has the name of i times the step.
fn grow(text: &mut [u8], count: u32, step: u32) -> usize
    ensures { (result ≤ length text.old) × (length text.new ≡ length text.old) }
{
    let mut n = try_bytes::put(text, 0, b"/set type=dir\n.\n");
    let mut k = 0;
    for _ in 0..count {
        if n == text.len() {
            return n;
        }
        k = (k + step % 4096) % 4096;
        n = try_bytes::put(text, n, &[letter(k / 256), letter(k / 16), letter(k)]);
        n = try_bytes::put(text, n, b"\n..\n");
    }
    n
}

// The bytes of a file; none where it can't be read.
fn load(rt: &impl Files, name: &[u8], text: &mut [u8]) -> usize
    ensures { (result ≤ length text.old) × (length text.new ≡ length text.old) }
{
    let Ok(path) = str::from_utf8(name) else {
        return 0;
    };
    let Ok(mut file) = fs::open(rt, path) else {
        return 0;
    };
    read_whole::fill(&mut file, text).unwrap_or(0)
}

// The text of a case; its bytes.
pub fn make(rt: &impl Files, line: &[u8], text: &mut [u8]) -> usize
    ensures { (result ≤ length text.old) × (length text.new ≡ length text.old) }
{
    match line.first() {
        Some(b't') => try_bytes::decode(line, 2, text),
        Some(b'p') => {
            let n = try_bytes::decode(line, 3, text);
            pad(text, n, try_fields::count(line, 2))
        }
        Some(b'm') => grow(text, try_fields::small(line, 2), try_fields::small(line, 3)),
        _ => load(rt, try_fields::rest(line, 2), text),
    }
}
