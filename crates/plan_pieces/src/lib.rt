// What a result takes at one item of the plan: rows counted, copied, and named as the side names them.
#![tactic(auto)]

ghost use Rattle.std.specs.Prelude.{◌≡◌, ◌+◌, ◌-◌, ◌%◌, ◌≤◌, length, take, drop};
ghost use Rattle.table_row.specs.Buffer.{written};
ghost use Rattle.plan.specs.Writes.{Writes};
ghost use Rattle.plan_results.specs.Pieces.{source_words, named, name_row, piece_of};

use plan_cursor::{Decision, Rows, Tables};
use plan_results::{Source, Tree};

// A source's words. Inlined, since whoever asks for their number alone needs no more of them.
#[inline(always)]
fn source_part<'a>(t: Tables<'a>, s: Source) -> &'a [u32]
    ensures { result.now ≡ source_words t.entry.o.now t.entry.l.now t.entry.r.now s }
{
    match s {
        Source::OldPart(i) => table_find::part(t.o, i),
        Source::LeftPart(i) => table_find::part(t.l, i),
        Source::RightPart(i) => table_find::part(t.r, i),
        Source::LeftRow(i) => plan_decode::one_row(t.l, i),
        Source::RightRow(i) => plan_decode::one_row(t.r, i),
    }
}

// How many words a source has.
pub fn source_len(t: Tables, s: Source) -> usize
    ensures { result ≡ length (source_words t.entry.o.now t.entry.l.now t.entry.r.now s) }
{
    source_part(t, s).len()
}

// A source's words into out at place at; the next place.
fn copy_source(t: Tables, s: Source, out: &mut [u32], at: usize) -> usize
    requires { at + length (source_words t.o.now t.l.now t.r.now s) ≤ length out.old }
    ensures { Writes out.old at (source_words t.entry.o.now t.entry.l.now t.entry.r.now s) out.new result }
{
    table_row::copy_words(source_part(t, s), out, at)
}

// The first of the rows of out from place at to e called as a row is, where they and the row are there.
fn rename(row: &[u32], out: &mut [u32], at: usize, e: usize)
    requires { (length row.now % 20 ≡ 0) × (at ≤ e) × ((e - at) % 20 ≡ 0) × (e ≤ length out.old) }
    ensures { out.new ≡ written out.old at (named row.now (take (e - at) (drop at out.old))) }
{
    if row.len() < 20 {
        return;
    }
    if at < e {
        table_row::copy_words(&row[2..10], out, at + 2);
    }
}

// What is moved, from place at to e of out, called as in the tree that a new tree goes by, where that one has it.
fn name_moved(t: Tables, tree: Tree, h: Rows, out: &mut [u32], at: usize, e: usize)
    requires { (at ≤ e) × ((e - at) % 20 ≡ 0) × (e ≤ length out.old) }
    ensures { out.new ≡ written out.old at (named (name_row tree t.entry.l.now t.entry.r.now h) (take (e - at) (drop at out.old))) }
{
    match tree {
        Tree::Archive => rename(plan_decode::one_row(t.l, h.l), out, at, e),
        Tree::Left => rename(plan_decode::one_row(t.l, h.l), out, at, e),
        Tree::Right => rename(plan_decode::one_row(t.r, h.r), out, at, e),
    }
}

// A new tree's piece for a decision, into out at place at; the next place.
pub fn write_piece(t: Tables, tree: Tree, d: Decision, out: &mut [u32], at: usize) -> usize
    requires { at + length (piece_of tree t.o.now t.l.now t.r.now d) ≤ length out.old }
    ensures { Writes out.old at (piece_of tree t.entry.o.now t.entry.l.now t.entry.r.now d) out.new result }
{
    let s = plan_decode::takes(tree, d);
    let e = copy_source(t, s, out, at);
    match d {
        Decision::Agreed(_) => {}
        Decision::LeftGets(h) => name_moved(t, tree, h, out, at, e),
        Decision::RightGets(h) => name_moved(t, tree, h, out, at, e),
        Decision::Clash(_) => {}
    }
    e
}
