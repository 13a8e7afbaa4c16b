// Bytes of a text made from a field: | is a line end, %HH a byte, $ a keyword with a digest.
#![tactic(auto)]

ghost use Rattle.std.specs.Prelude.{◌≡◌, ◌≤◌, ◌<◌, length};

// A keyword with a digest.
const DIGEST: &[u8] =
    b"sha256digest=0123456789abcdef0123456789ABCDEFfedcba9876543210FEDCBA9876543210";

// Some bytes at the end of the n bytes of a text, as far as there is room; how many there are then.
pub fn put(text: &mut [u8], n: usize, piece: &[u8]) -> usize
    requires { n ≤ length text.old }
    ensures { (result ≤ length text.old) × (length text.new ≡ length text.old) }
{
    let end = n + piece.len().min(text.len() - n);
    text[n..end].copy_from_slice(&piece[..end - n]);
    end
}

// The text that field k of a line and what follows it stand for; its bytes.
pub fn decode(line: &[u8], k: usize, text: &mut [u8]) -> usize
    ensures { (result ≤ length text.old) × (length text.new ≡ length text.old) }
{
    let mut left = try_fields::rest(line, k);
    let mut n = 0;
    // The step is as long as what stands for a byte.
    while let Some((b, next)) = try_fields::first_byte(left, b'A') {
        n = match left {
            [b'|', ..] => put(text, n, b"\n"),
            [b'$', ..] => put(text, n, DIGEST),
            _ => put(text, n, &[b]),
        };
        left = next;
    }
    n
}
