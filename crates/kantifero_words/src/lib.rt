// The eight words of an answer, and a profile from its word.
#![tactic(auto)]

ghost use Rattle.std.specs.Prelude.{◌≡◌, ◌<◌};
ghost use Rattle.table_rules.specs.Answer.{place_of};
ghost use Rattle.kantifero_calls.specs.Words.{profile_of, eight, counted, answer_words, reconciled_words, NarrowCounts, Narrow};
ghost use Rattle.kantifero_calls.specs.Carried.{part_words, Within};

use plan_run::{Counts, Reconciled};
use table_rules::{Answer, Refusal};
use tree::Profile;

// 0 every byte counts, any other word letter case is ignored.
pub fn profile_of(word: u32) -> Profile
    ensures { result ≡ profile_of word }
{
    if word == 0 {
        return Profile::Exact;
    }
    Profile::Folded
}

// A count in 32 bits.
fn narrow(n: usize) -> u32
    requires { n < 4294967296 }
    ensures { result ≡ n }
{
    n as u32
}

// Three words, and zeros.
fn three_words(number: u32, side: u32, place: u32) -> [u32; 8]
    ensures { result ≡ eight number side place }
{
    [number, side, place, 0, 0, 0, 0, 0]
}

// The words of a refusal.
fn refusal_words(r: Refusal) -> [u32; 8]
    requires { r.place < 4294967296 }
    ensures { result ≡ eight r.number r.side r.place }
{
    three_words(r.number, r.side, narrow(r.place))
}

// The words of an answer that has one place.
pub fn answer_words(a: Answer) -> [u32; 8]
    requires { place_of a < 4294967296 }
    ensures { result ≡ answer_words a }
{
    match a {
        Ok(place) => three_words(0, 0, narrow(place)),
        Err(refusal) => refusal_words(refusal),
    }
}

// The words of a number, a side, a place and four counts.
pub fn counted_words(number: u32, side: u32, place: usize, n: Counts) -> [u32; 8]
    requires { NarrowCounts n × (place < 4294967296) }
    ensures { result ≡ counted number side place n }
{
    [
        number,
        side,
        narrow(place),
        narrow(n.archive),
        narrow(n.left),
        narrow(n.right),
        narrow(n.list),
        0,
    ]
}

// The words of a reconciliation's answer.
pub fn reconciled_words(a: Reconciled) -> [u32; 8]
    requires { Narrow a }
    ensures { result ≡ reconciled_words a }
{
    match a {
        Ok(n) => counted_words(0, 0, 0, n),
        Err(refusal) => refusal_words(refusal),
    }
}

// The words that say where n words of the rows to carry stand, which are none or those of the entry's source.
pub fn part_words(kind: u32, left_row: u32, right_row: u32, n: usize) -> [u32; 8]
    requires { Within kind left_row right_row n }
    ensures { result ≡ part_words kind left_row right_row n }
{
    if n == 0 {
        return three_words(0, 0, 0);
    }
    if kind == 1 {
        return three_words(3, 20 * right_row, narrow(n));
    }
    three_words(2, 20 * left_row, narrow(n))
}
