// Whether eight words are a name that an entry may have.
#![tactic(auto)]

ghost use Rattle.std.specs.Prelude.{◌≡◌, true, ◌∷◌, [], ◌≤◌, ◌<◌, length, drop, get_or};
ghost use Rattle.tree.specs.Rules.{zeros, bytes, zero_filled, good_name};
ghost use Rattle.table_names.specs.Low.{low_bytes};
ghost use Rattle.table_names.specs.Plain.{plain_word, filled_word};

// Whether every word is zero: all are looked at, so that no jump depends on one of them.
pub fn all_zero(s: &[u32]) -> bool
    ensures { result ≡ zeros s.now }
{
    let mut zero = true;
    for &word in s {
        if word != 0 {
            zero = false;
        }
    }
    zero
}

// Byte j of a word, the highest first.
fn byte_of(x: u32, j: usize) -> u8
    requires { j < 4 }
    ensures { result ≡ get_or (bytes (x ∷ [])) j 0 }
{
    x.to_be_bytes()[j]
}

// The bytes of a word from byte j on, as a number.
fn low_bytes(x: u32, j: usize) -> u32
    requires { j < 4 }
    ensures { result ≡ low_bytes x j }
{
    match j {
        0 => x,
        1 => x % 16777216,
        2 => x % 65536,
        _ => x % 256,
    }
}

// Whether the bytes of a name are zero from one on: those of its word, and the words after that.
fn zeros_from(s: &[u32], from: usize) -> bool
    requires { (length s.now ≡ 8) × (from < 32) }
    ensures { result ≡ zeros (drop from (bytes s.now)) }
{
    let i = from / 4;
    if low_bytes(s[i], from % 4) == 0 {
        return all_zero(&s[i + 1..]);
    }
    false
}

// Whether the bytes of a name from one on have none that is 47, and no zero byte before one that is not zero.
fn filled_from(s: &[u32], from: usize) -> bool
    requires { (length s.now ≡ 8) × (from ≤ 32) }
    ensures { result ≡ zero_filled (drop from (bytes s.now)) }
{
    for k in from..32 {
        let b = byte_of(s[k / 4], k % 4);
        if b == 0 {
            return zeros_from(s, k);
        }
        if b == 47 {
            return false;
        }
    }
    true
}

// Whether the lower seven bits of none of a word's bytes are 0 or 47, all four at once: bit 7 of a byte in p says that they are
// not 0, in q that they are not 47, and no sum goes over into the next byte.
fn plain_word(x: u32) -> bool
    ensures { result ≡ plain_word x }
{
    let low = x & 2139062143;
    let p = low + 2139062143;
    let q = (low ^ 791621423) + 2139062143;
    (p & q) & 2155905152 == 2155905152
}

// A word with its last zero bytes made 97.
fn filled(x: u32) -> u32
    ensures { result ≡ filled_word x }
{
    if x % 256 != 0 {
        return x;
    }
    if x % 65536 != 0 {
        return x + 97;
    }
    if x % 16777216 != 0 {
        return x + 24929;
    }
    if x != 0 {
        return x + 6381921;
    }
    1633771873
}

// Whether a name is told to be good by its first three words, as most of 4 to 12 bytes are; where it isn't, it may be good all
// the same.
pub fn short_name(s: &[u32]) -> bool
    requires { length s.now ≡ 8 }
    ensures { result ≡ true → good_name s.now ≡ true }
{
    if all_zero(&s[3..]) {
        if plain_word(s[0]) {
            if plain_word(s[1]) {
                return plain_word(filled(s[2]));
            }
            if s[2] == 0 {
                return plain_word(filled(s[1]));
            }
        }
    }
    false
}

// Whether a name has no byte 47, and no zero byte before one that is not zero: by words, and byte by byte from the first word on
// that is not told so.
fn zero_filled(s: &[u32]) -> bool
    requires { length s.now ≡ 8 }
    ensures { result ≡ zero_filled (bytes s.now) }
{
    for k in 0..8 {
        if plain_word(s[k]) {
            continue;
        }
        if plain_word(filled(s[k])) {
            return all_zero(&s[k + 1..]);
        }
        return filled_from(s, 4 * k);
    }
    true
}

// Whether eight words are a name that an entry may have.
pub fn good_name(s: &[u32]) -> bool
    requires { length s.now ≡ 8 }
    ensures { result ≡ good_name s.now }
{
    let x = s[0];
    if x == 0 {
        return false;
    }
    if x == 0x2E000000 {
        return false;
    }
    if x == 0x2E2E0000 {
        return false;
    }
    zero_filled(s)
}
