// What one line of a listing does to the reader's state and to the table, in a profile.
#![tactic(auto)]

ghost use Rattle.std.specs.Prelude.{◌<◌, length};
ghost use Rattle.listing.specs.Words.{words};
ghost use Rattle.listing.specs.Reading.{line_does};
ghost use Rattle.listing_reader.specs.State.{Ready};
ghost use Rattle.listing_lines.specs.Takes.{Takes, first_does};

use listing_reader::Reader;
use tree::Profile;

// A line by its first word and what is left of it.
fn word_line(
    profile: Profile,
    word: &[u8],
    rest: &[u8],
    t: &mut [u32],
    s: Reader,
) -> Result<Reader, u32>
    requires { (0 < length word.now) × Ready profile t.old s }
    ensures { Takes profile (λ most. first_does profile most word.now (words rest.now)) t.old s t.new result }
{
    if word[0] == 47 {
        return listing_slash_line::slash_line(word, rest, s);
    }
    if listing_words::same_bytes(word, b"..") {
        return listing_entry_line::close_line(rest, s);
    }
    if listing_words::same_bytes(word, b".") {
        return listing_entry_line::root_line(rest, t.len(), s);
    }
    listing_entry_line::entry_line(profile, word, rest, t, s)
}

// A line: blank lines and comments are skipped, then 7 comes first.
pub fn take_line(profile: Profile, line: &[u8], t: &mut [u32], s: Reader) -> Result<Reader, u32>
    requires { Ready profile t.old s }
    ensures { Takes profile (λ most. line_does profile most line.now) t.old s t.new result }
{
    let a = listing_words::skip_blanks(line, 0);
    if line.len() <= a {
        return Ok(s);
    }
    if line[a] == 35 {
        return Ok(s);
    }
    if listing_words::all_text(line) {
        let e = listing_words::word_end(line, a);
        return word_line(profile, &line[a..e], &line[e..], t, s);
    }
    Err(7)
}
