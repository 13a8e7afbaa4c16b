// The line of the root, of an entry, and of a folder's end.
#![tactic(auto)]

ghost use Rattle.std.specs.Prelude.{◌≤◌};
ghost use Rattle.listing.specs.Words.{words};
ghost use Rattle.listing.specs.Reading.{close_line, entry_line};
ghost use Rattle.listing_reader.specs.State.{Ready};
ghost use Rattle.listing_lines.specs.Takes.{Alters, Roots, Takes};

use listing_reader::Reader;
use tree::Profile;

// `..`, with what is left of its line: it stands alone.
pub fn close_line(rest: &[u8], s: Reader) -> Result<Reader, u32>
    requires { s.depth ≤ 17 }
    ensures { Alters (close_line (words rest.now)) s result }
{
    if s.depth == 0 {
        return Err(11);
    }
    if listing_keywords::no_more(rest) {
        return Ok(s.leave());
    }
    Err(9)
}

// `.`, with what is left of its line, for a table of so many words: it comes first and is a folder, and its row is all zero.
pub fn root_line(rest: &[u8], room: usize, s: Reader) -> Result<Reader, u32>
    ensures { Roots (words rest.now) room s result }
{
    if s.count != 0 {
        return Err(11);
    }
    listing_held::root_of(rest, Ok(s.default))?;
    if room < 20 {
        return Err(3);
    }
    Ok(s.enter_root())
}

// Any other entry, by the word that spells its name and what is left of its line.
pub fn entry_line(
    profile: Profile,
    word: &[u8],
    rest: &[u8],
    t: &mut [u32],
    s: Reader,
) -> Result<Reader, u32>
    requires { Ready profile t.old s }
    ensures { Takes profile (λ most. entry_line profile most word.now (words rest.now)) t.old s t.new result }
{
    if s.depth == 0 {
        return Err(11);
    }
    let Some(name) = listing_names::name_of(word) else {
        return Err(8);
    };
    let content = listing_held::entry_of(rest, Ok(s.default))?;
    listing_put_row::put_row(profile, t, s, name, content)
}
