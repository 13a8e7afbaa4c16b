// The keywords among the words of a line: how often each is there, its first value, and the line's type.
#![tactic(auto)]

ghost use Rattle.std.specs.Prelude.{◌≡◌, List, ℕ};
ghost use Rattle.listing.specs.Words.{Words, words, values};
ghost use Rattle.listing.specs.Reading.{is_empty};
ghost use Rattle.listing.specs.Entries.{Said as Typed, type_of, one_type, type_in};
ghost use Rattle.listing_keywords.specs.Found.{seen_after, noted_after, Found, AllFound};
ghost use Rattle.listing_keywords.specs.Entries.{kind_due, type_due};

// What an entry is, by its type.
#[derive(Clone, Copy)]
pub enum Kind {
    Dir,
    File,
}

// A line's type, if it says one, or the number that is due. As a default, it is what holds where the line says none.
pub type Said = Result<Option<Kind>, u32>;

// No word with a keyword, one, or more, and the first one's value.
#[derive(Clone, Copy)]
pub enum Hit<'a> {
    Never,
    Once(&'a [u8]),
    More(&'a [u8]),
}

// What a line says for the three keywords that an entry's content is told by.
#[derive(Clone, Copy)]
pub struct Hits<'a> {
    pub kind: Hit<'a>,
    pub size: Hit<'a>,
    pub digest: Hit<'a>,
}

// A word more with a keyword, of that value.
fn seen<'a>(h: Hit<'a>, value: &'a [u8]) -> Hit<'a>
    ensures { result ≡ seen_after h.entry value.entry }
{
    match h {
        Hit::Never => Hit::Once(value),
        Hit::Once(first) => Hit::More(first),
        Hit::More(first) => Hit::More(first),
    }
}

// A word more, with the keyword key: the one of the three that it is, if it is one.
fn noted<'a>(h: Hits<'a>, key: &[u8], value: &'a [u8]) -> Hits<'a>
    ensures { result ≡ noted_after h.entry key.now value.entry }
{
    if key.len() == 4 {
        if listing_words::same_bytes(key, b"type") {
            return Hits {
                kind: seen(h.kind, value),
                ..h
            };
        }
        if listing_words::same_bytes(key, b"size") {
            return Hits {
                size: seen(h.size, value),
                ..h
            };
        }
        return h;
    }
    if listing_words::same_bytes(key, b"sha256digest") {
        return Hits {
            digest: seen(h.digest, value),
            ..h
        };
    }
    h
}

// How often each of the three keywords is said in what is left of a line, and its first value.
pub fn find_keys<'a>(rest: &'a [u8]) -> Hits<'a>
    ensures { AllFound rest.now (words rest.now) result }
{
    let mut h = Hits {
        kind: Hit::Never,
        size: Hit::Never,
        digest: Hit::Never,
    };
    let mut left = rest;
    while let Some((word, after)) = listing_words::first_word(left) {
        let k = listing_values::key_end(word);
        let v = if k < word.len() { k + 1 } else { k };
        h = noted(h, &word[..k], &word[v..]);
        left = after;
    }
    h
}

// No word has the keyword.
pub fn lacks(rest: &[u8], key: &[u8]) -> bool
    ensures { result ≡ is_empty (values key.now (words rest.now)) }
{
    let mut left = rest;
    while let Some((word, after)) = listing_words::first_word(left) {
        if listing_values::has_key(word, key) {
            return false;
        }
        left = after;
    }
    true
}

// No word is left.
pub fn no_more(rest: &[u8]) -> bool
    ensures { result ≡ is_empty (words rest.now) }
{
    rest.len() <= listing_words::skip_blanks(rest, 0)
}

// The value of type: 10 for one that is not known. The number that is due is a plain one, here and in each crate above: the rules
// refuse by number, the definitions `Entry`, `Step` and `Outcome` have it, and a variant for each would be that number by another
// name.
fn type_of(value: &[u8]) -> Result<Kind, u32>
    ensures { result ≡ kind_due (type_of value.now) }
{
    if listing_words::same_bytes(value, b"dir") {
        return Ok(Kind::Dir);
    }
    if listing_words::same_bytes(value, b"file") {
        return Ok(Kind::File);
    }
    Err(10)
}

// A line's type, by what was found of the values of type and by the default: 10 for one that is not known, 9 for two.
pub fn type_by(h: Hit<'_>, default: Said) -> Said
    ensures { (l : List ℕ) (vs : Words) (d : Typed) → Found l vs h.entry → default ≡ type_due d → result ≡ type_due (one_type d vs) }
{
    match h {
        Hit::Never => default,
        Hit::Once(value) => Ok(Some(type_of(value)?)),
        Hit::More(_) => Err(9),
    }
}

// A line's type, by the words that are left of it and the default.
pub fn type_in(rest: &[u8], default: Said) -> Said
    ensures { (d : Typed) → default ≡ type_due d → result ≡ type_due (type_in d (words rest.now)) }
{
    type_by(find_keys(rest).kind, default)
}
