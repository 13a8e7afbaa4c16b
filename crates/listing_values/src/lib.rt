// What a word says besides a name: a keyword, a size, a digest.
#![tactic(auto)]

ghost use Rattle.std.specs.Prelude.{◌≡◌, ◌==◌, true, cond, map, position, ◌-◌, ◌<◌, ◌≤◌, length, take};
ghost use Rattle.tree.specs.Same.{same_words};
ghost use Rattle.listing.specs.Bytes.{digit_value, within};
ghost use Rattle.listing.specs.Words.{key_len};
ghost use Rattle.listing_scan.specs.Places.{Counted};
ghost use Rattle.listing_values.specs.Values.{IsSize, IsHex, IsDigest, all_below, pairs};

// A size's two words.
#[derive(Clone, Copy)]
pub struct Size {
    pub high: u32,
    pub low: u32,
}

// Where the first `=` of a word stands.
fn first_equals(word: &[u8]) -> Option<usize>
    ensures { result ≡ position (λ b. b == 61) word.now }
{
    word.iter().position(|b| *b == 61)
}

// Where a word's keyword ends: at its first `=`, else at its end.
pub fn key_end(word: &[u8]) -> usize
    ensures { Counted word.now (key_len word.now) result }
{
    first_equals(word).unwrap_or(word.len())
}

// A word's keyword is key.
pub fn has_key(word: &[u8], key: &[u8]) -> bool
    ensures { result ≡ same_words (take (key_len word.now) word.now) key.now }
{
    let k = key_end(word);
    listing_words::same_bytes(&word[..k], key)
}

// The size that a value says.
pub fn size_of(value: &[u8]) -> Option<Size>
    ensures { IsSize value.now result }
{
    if value.len() == 0 {
        return None;
    }
    if 20 < value.len() {
        return None;
    }
    let mut v: u64 = 0;
    for &b in value {
        let d = u64::from(listing_bytes::digit_value(b));
        if 9 < d {
            return None;
        }
        if (18446744073709551615 - d) / 10 < v {
            return None;
        }
        v = 10 * v + d;
    }
    Some(Size {
        high: (v / 4294967296) as u32,
        low: (v % 4294967296) as u32,
    })
}

// How far a byte of a range stands above base, and other for any other byte.
fn above(b: u8, low: u8, high: u8, base: u8, other: u8) -> u8
    requires { base ≤ low }
    ensures { result ≡ cond (within low high b) (b - base) other }
{
    if low <= b {
        if b <= high {
            return b - base;
        }
    }
    other
}

// The value of a hex digit, 16 where it is none. It goes by comparisons and not by a match with ranges: that one jumps on each
// digit, and the digits of a digest can't be foreseen.
fn hex_value(b: u8) -> u8
    ensures { result ≡ digit_value b }
{
    let lower = above(b, 97, 102, 87, 16);
    let upper = above(b, 65, 70, 55, lower);
    above(b, 48, 57, 48, upper)
}

// The values of 64 hex digits, 16 for each that is none.
fn hex_values(value: &[u8]) -> [u8; 64]
    requires { length value.now ≡ 64 }
    ensures { (length result ≡ 64) × (result ≡ map digit_value value.now) }
{
    let mut digits = [0u8; 64];
    for i in 0..64 {
        digits[i] = hex_value(value[i]);
    }
    digits
}

// Whether all are values of digits: all are looked at, so that no jump depends on one of them.
fn all_digits(digits: &[u8; 64]) -> bool
    requires { length digits.now ≡ 64 }
    ensures { result ≡ all_below 16 digits.now }
{
    let mut good = true;
    for &d in digits {
        if 15 < d {
            good = false;
        }
    }
    good
}

// Two digits' values to a byte.
fn packed_pairs(digits: &[u8; 64]) -> [u8; 32]
    requires { (length digits.now ≡ 64) × (all_below 16 digits.now ≡ true) }
    ensures { result ≡ pairs digits.now }
{
    let mut bytes = [0u8; 32];
    for i in 0..32 {
        bytes[i] = 16 * digits[2 * i] + digits[2 * i + 1];
    }
    bytes
}

// The bytes that 64 hex digits say.
fn hex_bytes(value: &[u8]) -> Option<[u8; 32]>
    requires { length value.now ≡ 64 }
    ensures { IsHex value.now result }
{
    let digits = hex_values(value);
    if all_digits(&digits) {
        return Some(packed_pairs(&digits));
    }
    None
}

// The digest that a value says.
pub fn digest_of(value: &[u8]) -> Option<[u32; 8]>
    ensures { IsDigest value.now result }
{
    if value.len() != 64 {
        return None;
    }
    Some(listing_names::pack(&hex_bytes(value)?))
}
