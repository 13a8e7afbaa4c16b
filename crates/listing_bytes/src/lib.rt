// A listing's bytes: what class each is of, where in a line it leaves the reader, and the values of digits.
#![tactic(auto)]

ghost use Rattle.std.specs.Prelude.{◌≡◌};
ghost use Rattle.listing.specs.Bytes.{class_of, Digit};
ghost use Rattle.listing.specs.Lines.{by_end, begin_of, step_of, is_done};

use listing::{Class, Mode};

// The class of a byte.
pub fn sort_byte(b: u8) -> Class
    ensures { result ≡ class_of b }
{
    match b {
        10 => Class::LineEnd,
        9 | 32 => Class::Blank,
        92 => Class::Escape,
        35 => Class::Hash,
        42 | 47 | 63 | 91 => Class::Mark,
        33..=126 => Class::Plain,
        _ => Class::Refused,
    }
}

// The value of a decimal, octal or hex digit. A byte that is none has 16 and no Option: each byte has an answer, which is the
// number that the definitions `digit_value`, `octal` and `hex_bytes` are on.
pub fn digit_value(b: u8) -> u8
    ensures { Digit b result }
{
    match b {
        48..=57 => b - 48,
        65..=70 => b - 55,
        97..=102 => b - 87,
        _ => 16,
    }
}

// Where a byte of a class leads within a line.
pub fn step(m: Mode, c: Class) -> Mode
    ensures { result ≡ step_of m c }
{
    match m {
        Mode::Lead => begin(c),
        Mode::LeadBack => by_end(c, Mode::Lead, Mode::BodyBack, Mode::Body),
        Mode::Body => by_end(c, Mode::Done, Mode::BodyBack, Mode::Body),
        Mode::BodyBack => by_end(c, Mode::Body, Mode::BodyBack, Mode::Body),
        Mode::Comment => by_end(c, Mode::Done, Mode::Comment, Mode::Comment),
        Mode::Done => Mode::Done,
    }
}

// Where the first byte that is no blank leads.
fn begin(c: Class) -> Mode
    ensures { result ≡ begin_of c }
{
    match c {
        Class::Blank => Mode::Lead,
        Class::LineEnd => Mode::Done,
        Class::Hash => Mode::Comment,
        Class::Escape => Mode::LeadBack,
        Class::Plain => Mode::Body,
        Class::Mark => Mode::Body,
        Class::Refused => Mode::Body,
    }
}

// One of three: for LF, for a backslash, for any other byte.
fn by_end(c: Class, lf: Mode, back: Mode, other: Mode) -> Mode
    ensures { result ≡ by_end c lf back other }
{
    match c {
        Class::LineEnd => lf,
        Class::Escape => back,
        Class::Plain => other,
        Class::Blank => other,
        Class::Hash => other,
        Class::Mark => other,
        Class::Refused => other,
    }
}

// The line has ended.
pub fn ended(m: Mode) -> bool
    ensures { result ≡ is_done m }
{
    matches!(m, Mode::Done)
}
