// Names compared as they are or by their keys.
#![tactic(auto)]

ghost use Rattle.std.specs.Prelude.{◌≡◌, ◌+◌, ◌*◌, ◌≤◌, ◌<◌, length};
ghost use Rattle.tree.specs.Name.{cmp};
ghost use Rattle.tree.specs.declared.Profile.TheVariants.{Folded};
ghost use Rattle.tree.specs.Key.{lower_word, key};
ghost use Rattle.tree.specs.Same.{same_words};
ghost use Rattle.table_row.specs.Table.{row_at, name};
ghost use Rattle.table_row.specs.Order.{ordered};
ghost use Rattle.table_row.specs.Keyed.{key_word};

use std::cmp::Ordering;
use tree::Profile;

// A to Z as a to z in each of a word's four bytes, at once: bit 7 of a byte in p says that its lower seven bits are 65 or more,
// in q that they are 91 or more, and no sum goes over into the next byte.
pub fn lower_word(x: u32) -> u32
    ensures { result ≡ lower_word x }
{
    let low = x & 2139062143;
    let p = low + 1061109567;
    let q = low + 623191333;
    let letters = (p ^ q) & 2155905152;
    let capitals = letters & (x ^ 2155905152);
    x + capitals / 4
}

// A word of a name as it stands in the name's key.
fn key_word(profile: Profile, x: u32) -> u32
    ensures { result ≡ key_word profile x }
{
    match profile {
        Profile::Exact => x,
        Profile::Folded => lower_word(x),
    }
}

// The order of two names by their keys: the first words that differ decide.
pub fn compare_keys(profile: Profile, a: &[u32], b: &[u32]) -> Ordering
    requires { length a.now ≡ length b.now }
    ensures { result ≡ ordered (cmp (key profile a.now) (key profile b.now)) }
{
    for k in 0..a.len() {
        let x = key_word(profile, a[k]);
        let y = key_word(profile, b[k]);
        if x < y {
            return Ordering::Less;
        }
        if y < x {
            return Ordering::Greater;
        }
    }
    Ordering::Equal
}

// The order of two lists of as many words.
pub fn compare_words(a: &[u32], b: &[u32]) -> Ordering
    requires { length a.now ≡ length b.now }
    ensures { result ≡ ordered (cmp a.now b.now) }
{
    compare_keys(Profile::Exact, a, b)
}

// Whether the names of row i of a and row j of b are the same: all words are looked at, so that no jump depends on one of them.
pub fn same_names(a: &[u32], i: usize, b: &[u32], j: usize) -> bool
    requires { (20 * i + 20 ≤ length a.now) × (20 * j + 20 ≤ length b.now) }
    ensures { result ≡ same_words (name (row_at a.now i)) (name (row_at b.now j)) }
{
    let p = 20 * i + 2;
    let q = 20 * j + 2;
    let mut same = true;
    for k in 0..8 {
        if a[p + k] != b[q + k] {
            same = false;
        }
    }
    same
}

// The order of the names of row i of a and row j of b, as they are; compare_rows of table_row_rules is that of the keys in one
// table. Both stand, since what each promises, and those who call it rely on, is a contract of its own.
pub fn compare_names(a: &[u32], i: usize, b: &[u32], j: usize) -> Ordering
    requires { (20 * i + 20 ≤ length a.now) × (20 * j + 20 ≤ length b.now) }
    ensures { result ≡ ordered (cmp (name (row_at a.now i)) (name (row_at b.now j))) }
{
    compare_words(table_row::name(a, i), table_row::name(b, j))
}
