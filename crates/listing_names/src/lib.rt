// The name that a word spells: escapes undone, and its bytes as eight words.
#![tactic(auto)]

ghost use Rattle.std.specs.Prelude.{◌≡◌, ◌+◌, ◌≤◌, ◌<◌, length, drop, get_or};
ghost use Rattle.listing.specs.Bytes.{class_of, digit_value};
ghost use Rattle.listing.specs.Names.{octal as octal_of, spelt_as, quad as quad_of, packed};
ghost use Rattle.listing_names.specs.Names.{IsOctal, IsByte, IsSpelt, IsName};

// The octal digit at place i, if there is one.
fn digit_at(word: &[u8], i: usize) -> Option<u8>
    ensures { IsOctal (digit_value (get_or word.now i 0)) result }
{
    let d = listing_bytes::digit_value(*word.get(i)?);
    if 7 < d {
        return None;
    }
    Some(d)
}

// The byte that three octal digits say, if it is one that is escaped.
fn octal(a: u8, b: u8, c: u8) -> Option<u8>
    requires { (a ≤ 7) × (b ≤ 7) × (c ≤ 7) }
    ensures { IsByte (octal_of a b c) result }
{
    if 3 < a {
        return None;
    }
    let v = 64 * a + 8 * b + c;
    if v == 0 {
        return None;
    }
    if v == 47 {
        return None;
    }
    Some(v)
}

// The byte that the three digits from place i on say, if they say one.
fn escaped(word: &[u8], i: usize) -> Option<u8>
    requires { i ≤ length word.now }
    ensures { IsByte (octal_of (digit_value (get_or word.now i 0)) (digit_value (get_or word.now (i + 1) 0)) (digit_value (get_or word.now (i + 2) 0))) result }
{
    let a = digit_at(word, i)?;
    let b = digit_at(word, i + 1)?;
    let c = digit_at(word, i + 2)?;
    octal(a, b, c)
}

// The byte that is spelt at place i, if the spot is no bad one.
fn byte_at(word: &[u8], i: usize) -> Option<u8>
    requires { i < length word.now }
    ensures { IsByte (spelt_as (class_of (get_or word.now i 0)) (get_or word.now i 0) (drop (i + 1) word.now)) result }
{
    let b = word[i];
    match listing_bytes::sort_byte(b) {
        listing::Class::Plain => Some(b),
        listing::Class::Escape => escaped(word, i + 1),
        listing::Class::Blank => None,
        listing::Class::LineEnd => None,
        listing::Class::Hash => None,
        listing::Class::Mark => None,
        listing::Class::Refused => None,
    }
}

// The bytes that a word spells, up to 32 and zero filled.
fn unescape(word: &[u8]) -> Option<[u8; 32]>
    ensures { IsSpelt word.now result }
{
    let mut bytes = [0u8; 32];
    let mut n: usize = 0;
    let mut i: usize = 0;
    // A `while`, since an escape is a step of four bytes.
    while i < word.len() {
        let b = byte_at(word, i)?;
        if n == 32 {
            return None;
        }
        bytes[n] = b;
        n += 1;
        if word[i] == 92 {
            i += 4;
        } else {
            i += 1;
        }
    }
    Some(bytes)
}

// Four bytes from place i on as a word.
fn quad(b: &[u8; 32], i: usize) -> u32
    requires { i + 4 ≤ 32 }
    ensures { result ≡ quad_of b.now i }
{
    u32::from_be_bytes([b[i], b[i + 1], b[i + 2], b[i + 3]])
}

// Bytes as eight words.
pub fn pack(b: &[u8; 32]) -> [u32; 8]
    ensures { result ≡ packed b.now }
{
    [
        quad(b, 0),
        quad(b, 4),
        quad(b, 8),
        quad(b, 12),
        quad(b, 16),
        quad(b, 20),
        quad(b, 24),
        quad(b, 28),
    ]
}

// The name that a word spells, if it is one that a table may hold.
pub fn name_of(word: &[u8]) -> Option<[u32; 8]>
    ensures { IsName word.now result }
{
    let words = pack(&unescape(word)?);
    if table_names::good_name(&words) {
        return Some(words);
    }
    None
}
