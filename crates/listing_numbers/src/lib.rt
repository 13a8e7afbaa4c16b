// Sizes and digests spelled.
#![tactic(auto)]

ghost use Rattle.std.specs.Prelude.{◌≡◌, [], ◌+◌, ◌≤◌, ◌<◌, ◌^◌, length, drop};
ghost use Rattle.tree.specs.Rules.{bytes};
ghost use Rattle.listing.specs.Writing.{decimal, hex_digit, hex};
ghost use Rattle.listing_spell.specs.Puts.{Wrote};

use listing_spell::Text;

// The decimal digits of a number, filled in from the back: where the first one stands.
fn fill_digits(digits: &mut [u8; 20], n: u64) -> usize
    requires { length digits.old ≡ 20 }
    ensures { (result ≤ 20) × (length digits.new ≡ 20) × (drop result digits.new ≡ decimal 20 n []) }
{
    let mut m = n;
    for k in (0..20).rev() {
        digits[k] = 48 + (m % 10) as u8;
        if m < 10 {
            return k;
        }
        m /= 10;
    }
    0
}

// A number in decimal, without leading zeros. By hand, as hex below: what Display writes stands in no contract of a text that may
// be longer than what is lent.
pub fn put_decimal(text: &mut Text, n: u64)
    requires { text.old.at + 20 < 2 ^ 64 }
    ensures { Wrote text.old (decimal 20 n []) 20 text.new }
{
    let mut digits = [0u8; 20];
    let first = fill_digits(&mut digits, n);
    text.put_all(&digits[first..]);
}

// A hex digit, in lower case.
fn hex_digit(d: u8) -> u8
    requires { d < 16 }
    ensures { result ≡ hex_digit d }
{
    if d < 10 { 48 + d } else { 87 + d }
}

// A digest's eight words in hex.
pub fn put_hex(text: &mut Text, words: &[u32])
    requires { (length words.now ≡ 8) × (text.old.at + 64 < 2 ^ 64) }
    ensures { Wrote text.old (hex (bytes words.now)) 64 text.new }
{
    for k in 0..32 {
        let b = listing_spell::byte_at(words, k);
        text.put_all(&[hex_digit(b / 16), hex_digit(b % 16)]);
    }
}
