// What the entry of a line holds, and what the root does.
#![tactic(auto)]

ghost use Rattle.std.specs.Prelude.{◌≡◌, List, [], ◌∷◌, ℕ};
ghost use Rattle.listing.specs.Words.{Words, words};
ghost use Rattle.listing.specs.Entries.{Said as Typed, type_in, one_each, entry_of, root_as};
ghost use Rattle.listing_keywords.specs.Found.{Found};
ghost use Rattle.listing_keywords.specs.Entries.{type_due, held_of, root_due};

use listing_keywords::{Hit, Kind, Said};

// A file by the values of its size and its digest.
fn content_of(size: &[u8], digest: &[u8]) -> Result<[u32; 11], u32>
    ensures { result ≡ held_of (one_each (size.now ∷ []) (digest.now ∷ [])) }
{
    let Some(s) = listing_values::size_of(size) else {
        return Err(9);
    };
    let Some(w) = listing_values::digest_of(digest) else {
        return Err(9);
    };
    Ok([
        1, s.high, s.low, w[0], w[1], w[2], w[3], w[4], w[5], w[6], w[7],
    ])
}

// A file by what was found of the values of size and of sha256digest: one good size and one good digest.
fn file_of(size: Hit<'_>, digest: Hit<'_>) -> Result<[u32; 11], u32>
    ensures { (l : List ℕ) (ss ds : Words) → Found l ss size.entry → Found l ds digest.entry → result ≡ held_of (one_each ss ds) }
{
    let Hit::Once(s) = size else {
        return Err(9);
    };
    let Hit::Once(d) = digest else {
        return Err(9);
    };
    content_of(s, d)
}

// What the words that are left of a line make of an entry, with the default in force: size and digest of a folder are not read.
pub fn entry_of(rest: &[u8], default: Said) -> Result<[u32; 11], u32>
    ensures { (d : Typed) → default ≡ type_due d → result ≡ held_of (entry_of d (words rest.now)) }
{
    let h = listing_keywords::find_keys(rest);
    match listing_keywords::type_by(h.kind, default)? {
        Some(Kind::Dir) => Ok([0; 11]),
        Some(Kind::File) => file_of(h.size, h.digest),
        None => Err(10),
    }
}

// Whether the words that are left of the root's line make it a folder.
pub fn root_of(rest: &[u8], default: Said) -> Result<(), u32>
    ensures { (d : Typed) → default ≡ type_due d → result ≡ root_due (root_as (type_in d (words rest.now))) }
{
    match listing_keywords::type_in(rest, default)? {
        Some(Kind::Dir) => Ok(()),
        Some(Kind::File) => Err(10),
        None => Err(10),
    }
}
