// Names of any length, and paths of them, made from a line, for the programs that try both profiles. A path has a slash after
// each name, as in `P/x/`; a byte of a name is itself, or % and two digits.
#![tactic(auto)]

ghost use Rattle.std.specs.Iterator.{IsFinite};

// The 32 bytes that a piece stands for, zero past its end.
fn bytes_of(piece: &[u8]) -> [u8; 32] {
    let mut bytes = [0; 32];
    let mut left = piece;
    for byte in &mut bytes {
        let Some((first, next)) = try_fields::first_byte(left, b'a') else {
            break;
        };
        *byte = first;
        left = next;
    }
    bytes
}

// The name that a piece stands for.
pub fn name_of(piece: &[u8]) -> [u32; 8] {
    let bytes = bytes_of(piece);
    let mut name = [0; 8];
    for (word, four) in name.iter_mut().zip(bytes.as_chunks::<4>().0) {
        *word = u32::from_be_bytes(*four);
    }
    name
}

// The slots of a path: the names that come, as far as there are slots, and zeros.
pub fn slots<I: Iterator<Item = [u32; 8]>>(names: I) -> [[u32; 8]; 16]
    requires { I.can_next names × IsFinite (I.remaining names) }
{
    let mut slots = [[0; 8]; 16];
    for (slot, name) in slots.iter_mut().zip(names) {
        *slot = name;
    }
    slots
}

// The path in field k of a line.
pub fn path_of(line: &[u8], k: usize) -> [[u32; 8]; 16] {
    let pieces = try_fields::rest(line, k).split(|&b| b == b'/');
    slots(
        pieces
            .take_while(|piece| !piece.starts_with(b" "))
            .map(name_of),
    )
}
