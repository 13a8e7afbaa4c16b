// What a line does that begins with a slash: it alters the default.
#![tactic(auto)]

ghost use Rattle.listing.specs.Words.{words};
ghost use Rattle.listing.specs.Reading.{set_line, unset_line, slash_line};
ghost use Rattle.listing_lines.specs.Takes.{Alters};

use listing_reader::Reader;

// /set, with what is left of its line: size and sha256digest are refused.
fn set_line(rest: &[u8], s: Reader) -> Result<Reader, u32>
    ensures { Alters (set_line (words rest.now)) s result }
{
    if !listing_keywords::lacks(rest, b"size") {
        return Err(9);
    }
    if !listing_keywords::lacks(rest, b"sha256digest") {
        return Err(9);
    }
    match listing_keywords::type_in(rest, Ok(None))? {
        None => Ok(s),
        Some(kind) => Ok(s.with_default(Some(kind))),
    }
}

// /unset, with what is left of its line.
fn unset_line(rest: &[u8], s: Reader) -> Result<Reader, u32>
    ensures { Alters (unset_line (words rest.now)) s result }
{
    if listing_keywords::lacks(rest, b"type") {
        if listing_keywords::lacks(rest, b"all") {
            return Ok(s);
        }
    }
    Ok(s.with_default(None))
}

// A line whose first word begins with a slash, by that word and what is left.
pub fn slash_line(word: &[u8], rest: &[u8], s: Reader) -> Result<Reader, u32>
    ensures { Alters (slash_line word.now (words rest.now)) s result }
{
    if listing_words::same_bytes(word, b"/set") {
        return set_line(rest, s);
    }
    if listing_words::same_bytes(word, b"/unset") {
        return unset_line(rest, s);
    }
    Err(9)
}
