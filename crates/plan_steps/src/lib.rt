// The steps of settling: the first entries of three folders, past them, their end, and an item put into the plan.
#![tactic(auto)]

ghost use Rattle.std.specs.Prelude.{◌≡◌, ◌+◌, ◌≤◌, length};
ghost use Rattle.plan.specs.Settle.{decision_words, ended, past, firsts, both};
ghost use Rattle.plan.specs.Writes.{Writes};

use plan_cursor::{Decision, Rows, Tables};

// A decision's four words, its number first: a plan is words in the contracts of what settles (`settled`), and a decision is an
// enum everywhere else.
#[tactic(auto, unfolding(plan::specs::Settle::decision_words))]
fn words_of(d: Decision) -> [u32; 4]
    ensures { result ≡ decision_words d }
{
    match d {
        Decision::Agreed(h) => [0, h.o, h.l, h.r],
        Decision::LeftGets(h) => [1, h.o, h.l, h.r],
        Decision::RightGets(h) => [2, h.o, h.l, h.r],
        Decision::Clash(h) => [3, h.o, h.l, h.r],
    }
}

// An item into the plan at place at; the next place.
#[tactic(auto, using(plan::proofs::Writes::copied))]
pub fn push(plan: &mut [u32], at: usize, d: Decision) -> usize
    requires { at + 4 ≤ length plan.old }
    ensures { Writes plan.old at (decision_words d) plan.new result }
{
    let words = words_of(d);
    table_row::copy_words(&words, plan, at)
}

// Whether no table has an entry left.
#[tactic(auto, unfolding(plan::specs::Settle::ended))]
pub fn ended_at(t: Tables, h: Rows) -> bool
    ensures { result ≡ ended t.entry.o.now t.entry.l.now t.entry.r.now h }
{
    !(plan_cursor::is_row(t.o, h.o)
        || plan_cursor::is_row(t.l, h.l)
        || plan_cursor::is_row(t.r, h.r))
}

// Whether the rows h are folders on both sides.
#[tactic(auto, unfolding(plan::specs::Settle::both))]
pub fn both_at(t: Tables, h: Rows) -> bool
    ensures { result ≡ both t.entry.l.now t.entry.r.now h }
{
    plan_cursor::is_folder(t.l, h.l) && plan_cursor::is_folder(t.r, h.r)
}

// From the heads h behind the entries g of depth d.
pub fn past_at(t: Tables, d: u32, h: Rows, g: Rows) -> Rows
    ensures { result ≡ past t.entry.o.now t.entry.l.now t.entry.r.now d h g }
{
    let a = plan_cursor::behind_at(t.o, d, h.o, g.o);
    let b = plan_cursor::behind_at(t.l, d, h.l, g.l);
    let c = plan_cursor::behind_at(t.r, d, h.r, g.r);
    Rows { o: a, l: b, r: c }
}

// The first entries of the folders at rows h, which have depth d.
pub fn firsts_at(t: Tables, d: u32, h: Rows) -> Rows
    ensures { result ≡ firsts t.entry.o.now t.entry.l.now t.entry.r.now d h }
{
    let i = table_row::wide(h.o) + 1;
    let j = table_row::wide(h.l) + 1;
    let k = table_row::wide(h.r) + 1;
    let a = plan_cursor::scan(t.o, i, d);
    let b = plan_cursor::scan(t.l, j, d);
    let c = plan_cursor::scan(t.r, k, d);
    Rows { o: a, l: b, r: c }
}
