// A text that is written: bytes put into it, and a name spelled.
#![tactic(auto)]

ghost use Rattle.std.specs.Prelude.{◌≡◌, ◌∷◌, [], ◌+◌, ◌*◌, ◌<◌, ◌^◌, length, get_or};
ghost use Rattle.tree.specs.Rules.{bytes};
ghost use Rattle.listing.specs.Writing.{as_it_is, spell_byte, name_text};
ghost use Rattle.listing_spell.specs.Puts.{Wrote};

// A text that is written into lent bytes: those that fit stand there, and all are counted.
#[derive(Drop)]
pub struct Text<'a> {
    pub out: &'a mut [u8],
    pub at: usize,
}

// Letters, digits, dot, underscore and hyphen stand for themselves.
fn as_it_is(b: u8) -> bool
    ensures { result ≡ as_it_is b }
{
    match b {
        45 | 46 | 95 => true,
        48..=57 => true,
        65..=90 => true,
        97..=122 => true,
        _ => false,
    }
}

// Byte k of the words s.
pub fn byte_at(s: &[u32], k: usize) -> u8
    requires { k < 4 * length s.now }
    ensures { result ≡ get_or (bytes s.now) k 0 }
{
    s[k / 4].to_be_bytes()[k % 4]
}

impl Text<'_> {
    // One byte.
    fn put(&mut self, b: u8)
        requires { self.old.at + 1 < 2 ^ 64 }
        ensures { Wrote self.old (b ∷ []) 1 self.new }
    {
        if self.at < self.out.len() {
            self.out[self.at] = b;
        }
        self.at += 1;
    }

    // Bytes as they are.
    pub fn put_all(&mut self, s: &[u8])
        requires { self.old.at + length s.now < 2 ^ 64 }
        ensures { Wrote self.old s.now (length s.now) self.new }
    {
        for &b in s {
            self.put(b);
        }
    }

    // A byte of a name, as it is or as a backslash and three octal digits.
    fn put_spelt(&mut self, b: u8)
        requires { self.old.at + 4 < 2 ^ 64 }
        ensures { Wrote self.old (spell_byte b) 4 self.new }
    {
        if as_it_is(b) {
            return self.put(b);
        }
        let escape = [92, 48 + b / 64, 48 + b / 8 % 8, 48 + b % 8];
        self.put_all(&escape);
    }

    // A name: its bytes up to the first zero.
    pub fn put_name(&mut self, name: &[u32])
        requires { (length name.now ≡ 8) × (self.old.at + 128 < 2 ^ 64) }
        ensures { Wrote self.old (name_text name.now) 128 self.new }
    {
        for k in 0..32 {
            let b = byte_at(name, k);
            if b == 0 {
                return;
            }
            self.put_spelt(b);
        }
    }
}
