// A text's lines as places in it.
#![tactic(auto)]

ghost use Rattle.std.specs.Prelude.{◌≡◌, ◌==◌, true, ◌+◌, ◌≤◌, ◌<◌, count_by, length, drop};
ghost use Rattle.listing.specs.Lines.{len_in};
ghost use Rattle.listing.specs.declared.Mode.TheVariants.{Lead, Body};
ghost use Rattle.listing_scan.specs.Places.{is_body, line_ends, Counted};
ghost use Rattle.listing_scan.specs.Plain.{Past};

// A word has begun, and no backslash stands right before.
fn in_body(m: listing::Mode) -> bool
    ensures { result ≡ is_body m }
{
    matches!(m, listing::Mode::Body)
}

// Whether the sixteen bytes from a place on are from least to 126 and none is a backslash: all are looked at, so that no jump
// depends on one of them. A yes is held to that; a no that is wrong costs time alone.
fn sixteen(text: &[u8], from: usize, least: u8) -> bool
    requires { from + 16 ≤ length text.now }
    ensures { result ≡ true → Past least text.now from (from + 16) }
{
    let mut all = true;
    for &b in &text[from..from + 16] {
        if b < least {
            all = false;
        }
        if 126 < b {
            all = false;
        }
        if b == 92 {
            all = false;
        }
    }
    all
}

// Past bytes from a place on, sixteen at a time, that are from least to 126 and no backslash.
fn past_sixteens(text: &[u8], from: usize, least: u8) -> usize
    requires { from ≤ length text.now }
    ensures { Past least text.now from result }
{
    let mut i = from;
    // A `while`, since a step is sixteen bytes.
    while i + 16 <= text.len() {
        if sixteen(text, i, least) {
            i += 16;
        } else {
            return i;
        }
    }
    i
}

// The same, told at once where fewer than sixteen bytes are left or the second of them is less, as it is in `..` and its line end.
pub fn past_plain(text: &[u8], from: usize, least: u8) -> usize
    requires { from ≤ length text.now }
    ensures { Past least text.now from result }
{
    if text.len() < from + 16 {
        return from;
    }
    if text[from + 1] < least {
        return from;
    }
    past_sixteens(text, from, least)
}

// The end of a logical line in which a word has begun: LF ends it, but not right after a backslash.
fn body_end(text: &[u8], from: usize) -> usize
    requires { from ≤ length text.now }
    ensures { Counted text.now (from + len_in Body (drop from text.now)) result }
{
    let mut back = false;
    for i in past_plain(text, from, 32)..text.len() {
        let b = text[i];
        if b == 10 {
            if back {
                back = false;
            } else {
                return i + 1;
            }
        } else {
            back = b == 92;
        }
    }
    text.len()
}

// The end of the logical line that begins at from. A text and a place in it, and no slice: `Counted` is on places, and the line is
// cut by the caller.
pub fn line_end(text: &[u8], from: usize) -> usize
    requires { from ≤ length text.now }
    ensures { Counted text.now (from + len_in Lead (drop from text.now)) result }
{
    let mut m = listing::Mode::Lead;
    for i in from..text.len() {
        m = listing_bytes::step(m, listing_bytes::sort_byte(text[i]));
        if listing_bytes::ended(m) {
            return i + 1;
        }
        if in_body(m) {
            return body_end(text, i + 1);
        }
    }
    text.len()
}

// How often LF stands in a part.
fn count_lf(part: &[u8]) -> usize
    ensures { result ≡ count_by (λ b. b == 10) part.now }
{
    part.iter().filter(|b| **b == 10).count()
}

// The LFs of a part, by which the line number grows.
pub fn line_ends(part: &[u8]) -> usize
    ensures { Counted part.now (line_ends part.now) result }
{
    count_lf(&part[past_sixteens(part, 0, 32)..])
}
