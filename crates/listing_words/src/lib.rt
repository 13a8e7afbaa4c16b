// A line's words as places in the text or one after the other, and whether a text's bytes are those of a listing.
#![tactic(auto)]

ghost use Rattle.std.specs.Prelude.{◌≡◌, ◌+◌, ◌≤◌, ◌<◌, eqb, length, drop, get_or};
ghost use Rattle.tree.specs.Same.{same_words};
ghost use Rattle.listing.specs.Bytes.{class_of};
ghost use Rattle.listing.specs.Words.{blank, span, is_refused, is_text};
ghost use Rattle.listing_scan.specs.Places.{skip, stretch, Counted};
ghost use Rattle.listing_words.specs.First.{IsFirst};

// LF stands at place i.
fn lf_at(line: &[u8], i: usize) -> bool
    ensures { result ≡ eqb (get_or line.now i 0) 10 }
{
    line.get(i) == Some(&10)
}

// The byte at place i parts words; most are above 32 and don't.
pub fn blank_at(line: &[u8], i: usize) -> bool
    requires { i < length line.now }
    ensures { result ≡ blank (get_or line.now i 0) (drop (i + 1) line.now) }
{
    let b = line[i];
    if 32 < b {
        if b != 92 {
            return false;
        }
    }
    match listing_bytes::sort_byte(b) {
        listing::Class::Blank => true,
        listing::Class::LineEnd => true,
        listing::Class::Escape => lf_at(line, i + 1),
        listing::Class::Plain => false,
        listing::Class::Hash => false,
        listing::Class::Mark => false,
        listing::Class::Refused => false,
    }
}

// The end of the stretch of blanks, or of other bytes, that begins at from.
fn stretch_end(line: &[u8], from: usize, blanks: bool) -> usize
    requires { from ≤ length line.now }
    ensures { Counted line.now (from + stretch blanks (drop from line.now)) result }
{
    for i in from..line.len() {
        if blank_at(line, i) != blanks {
            return i;
        }
    }
    line.len()
}

// The first place from there on that is no blank.
pub fn skip_blanks(line: &[u8], from: usize) -> usize
    requires { from ≤ length line.now }
    ensures { Counted line.now (from + skip (drop from line.now)) result }
{
    stretch_end(line, from, true)
}

// The end of the word that begins at from.
pub fn word_end(line: &[u8], from: usize) -> usize
    requires { from ≤ length line.now }
    ensures { Counted line.now (from + span (drop from line.now)) result }
{
    stretch_end(line, listing_scan::past_plain(line, from, 33), false)
}

// The first word of what is left of a line, and what is left after it. Inlined into the loops over a line's words, which are most
// of the time of lines of many.
#[inline(always)]
pub fn first_word(rest: &[u8]) -> Option<(&[u8], &[u8])>
    ensures { IsFirst rest.now result }
{
    let a = skip_blanks(rest, 0);
    if rest.len() <= a {
        return None;
    }
    let e = word_end(rest, a);
    Some((&rest[a..e], &rest[e..]))
}

// A byte of number 7; most are from 32 to 126 and are not.
fn refused(b: u8) -> bool
    ensures { result ≡ is_refused (class_of b) }
{
    if 31 < b {
        if b < 127 {
            return false;
        }
    }
    matches!(listing_bytes::sort_byte(b), listing::Class::Refused)
}

// No byte of a line is due number 7.
pub fn all_text(line: &[u8]) -> bool
    ensures { result ≡ is_text line.now }
{
    for &b in &line[listing_scan::past_plain(line, 0, 32)..] {
        if refused(b) {
            return false;
        }
    }
    true
}

// Two parts are the same bytes.
pub fn same_bytes(a: &[u8], b: &[u8]) -> bool
    ensures { result ≡ same_words a.now b.now }
{
    a == b
}
