// The lines of the input, the fields of a line, parted by spaces, and the numbers and bytes in them, for the programs that try
// the calls.
#![tactic(auto)]

ghost use Rattle.std.specs.Prelude.{◌≤◌, ◌<◌, length, IfSome};

use std::io;
use std::io::Read;

// What is done with each line of an input, in order.
pub fn each_line<F: FnMut(&[u8]) -> io::Result<()>>(
    input: &mut impl Read,
    mut try_line: F,
) -> io::Result<()>
    requires { F.IsAlwaysCallable try_line }
{
    let mut text = [0u8; 65536];
    let n = read_whole::fill(input, &mut text)?;
    for line in text[..n].split_inclusive(|&b| b == b'\n') {
        try_line(line.strip_suffix(b"\n").unwrap_or(line))?;
    }
    Ok(())
}

// Field k of a line and what follows it, nothing where there is no such field.
pub fn rest(line: &[u8], k: usize) -> &[u8] {
    line.splitn(k.saturating_add(1), |&b| b == b' ')
        .nth(k)
        .unwrap_or(&[])
}

// Field k of a line.
pub fn field(line: &[u8], k: usize) -> &[u8] {
    line.split(|&b| b == b' ').nth(k).unwrap_or(&[])
}

// A digit, up to `f`.
fn value_of(b: u8) -> u64
    ensures { result < 256 }
{
    match b {
        0..48 => 0,
        48..87 => u64::from(b) - 48,
        _ => u64::from(b) - 87,
    }
}

// The number in field k of a line, by its base; of what is before a digit, only the low word counts.
fn number(line: &[u8], k: usize, base: u64) -> u64
    requires { base ≤ 16 }
{
    let mut n = 0;
    for &b in field(line, k) {
        n = base * (n % 4294967296) + value_of(b);
    }
    n
}

// A count, in decimal.
pub fn count(line: &[u8], k: usize) -> usize {
    number(line, k, 10) as usize
}

// A word, in hexadecimal.
pub fn word(line: &[u8], k: usize) -> u32 {
    (number(line, k, 16) % 4294967296) as u32
}

// A word, in decimal.
pub fn small(line: &[u8], k: usize) -> u32 {
    (number(line, k, 10) % 4294967296) as u32
}

// The value of a digit, where the letters begin with one that is 10; zero for any other byte.
fn digit(b: u8, ten: u8) -> u8
    ensures { result < 16 }
{
    match b {
        b'0'..=b'9' => b - b'0',
        _ if ten <= b && b - ten < 6 => 10 + (b - ten),
        _ => 0,
    }
}

// The first byte that a text stands for and what is left of the text: % and two digits are a byte, as is any other.
pub fn first_byte(text: &[u8], ten: u8) -> Option<(u8, &[u8])>
    ensures { IfSome result (λ first. length first.1.now < length text.now) }
{
    match text {
        [] => None,
        [b'%', high, low, left @ ..] => Some((16 * digit(*high, ten) + digit(*low, ten), left)),
        [b'%', ..] => Some((0, &[])),
        [b, left @ ..] => Some((*b, left)),
    }
}
