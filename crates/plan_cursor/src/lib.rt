// Three tables looked at through a row number of each: the next entry, the entries of the least name, the decision there.
#![tactic(auto)]

ghost use Rattle.std.specs.Prelude.{◌≡◌, true, ◌+◌, ◌*◌, ◌%◌, ◌≤◌, length};
ghost use Rattle.plan_cursor.specs.Cursor.{is_row, HasRow, from, order_at, keep, least, behind, is_folder, decision};

pub mod tables;

use std::cmp::Ordering;
pub use tables::Tables;

// A row of archive, left and right each; 4,294,967,295 where there is none. They are numbers and no Options, since `least`,
// `decision` and the plan's words are on these numbers, and the list holds that one where a path has no row. Each has its name: an
// array of three would hide which is which.
#[derive(Clone, Copy)]
pub struct Rows {
    pub o: u32,
    pub l: u32,
    pub r: u32,
}

// The decision at a relevant path, with the rows that it takes from.
#[derive(Clone, Copy)]
pub enum Decision {
    Agreed(Rows),
    LeftGets(Rows),
    RightGets(Rows),
    Clash(Rows),
}

// No table has this row.
const NONE: u32 = 4294967295;

// Row i as an index, where a table has it.
fn row_of(t: &[u32], i: u32) -> Option<usize>
    ensures { HasRow t.now i result }
{
    let j = table_row::wide(i);
    if j < t.len() / 20 { Some(j) } else { None }
}

// Whether a table has row i.
pub fn is_row(t: &[u32], i: u32) -> bool
    ensures { result ≡ is_row t.now i }
{
    row_of(t, i).is_some()
}

// The first row of depth d from row i on, before any that is less deep.
pub fn scan(t: &[u32], i: usize, d: u32) -> u32
    requires { length t.now ≤ 81920 }
    ensures { result ≡ from t.now d i }
{
    let n = t.len() / 20;
    for j in i..n {
        let e = t[20 * j];
        if e == d {
            return j as u32;
        }
        if e < d {
            return NONE;
        }
    }
    NONE
}

// The order of the names of two rows; a row that is not there comes after every other.
#[tactic(auto, unfolding(crate::specs::Cursor::order_at))]
pub fn order_at(w: &[u32], a: u32, v: &[u32], b: u32) -> Ordering
    ensures { result ≡ order_at w.now a v.now b }
{
    match row_of(w, a) {
        Some(i) => match row_of(v, b) {
            Some(j) => table_compare::compare_names(w, i, v, j),
            None => Ordering::Less,
        },
        None => match row_of(v, b) {
            Some(_) => Ordering::Greater,
            None => Ordering::Equal,
        },
    }
}

// Row a, where neither order says that its name comes after another.
fn kept(a: u32, x: Ordering, y: Ordering) -> u32
    ensures { result ≡ keep x y a }
{
    if x.is_le() && y.is_le() { a } else { NONE }
}

// Whether three heads are rows with one name.
fn same_heads(t: Tables, h: Rows) -> bool
    ensures { result ≡ true → least t.entry.o.now t.entry.l.now t.entry.r.now h ≡ h }
{
    let Some(a) = row_of(t.o, h.o) else {
        return false;
    };
    let Some(b) = row_of(t.l, h.l) else {
        return false;
    };
    let Some(c) = row_of(t.r, h.r) else {
        return false;
    };
    table_compare::same_names(t.l, b, t.r, c) && table_compare::same_names(t.o, a, t.l, b)
}

// Of three heads those with the least name; where all have one name, as most do, that is told first.
pub fn least_of(t: Tables, h: Rows) -> Rows
    ensures { result ≡ least t.entry.o.now t.entry.l.now t.entry.r.now h }
{
    let a = h.o;
    let b = h.l;
    let c = h.r;
    if same_heads(t, h) {
        return h;
    }
    let x = order_at(t.o, a, t.l, b);
    let y = order_at(t.l, b, t.r, c);
    let z = order_at(t.o, a, t.r, c);
    let first = kept(a, x, z);
    let second = kept(b, x.reverse(), y);
    let third = kept(c, z.reverse(), y.reverse());
    Rows {
        o: first,
        l: second,
        r: third,
    }
}

// Behind the entry at row t, if there is one, to the next of depth d; else where we were.
#[tactic(auto, unfolding(crate::specs::Cursor::behind))]
pub fn behind_at(w: &[u32], d: u32, a: u32, t: u32) -> u32
    requires { length w.now ≤ 81920 }
    ensures { result ≡ behind w.now d a t }
{
    match row_of(w, t) {
        Some(i) => scan(w, i + 1, d),
        None => a,
    }
}

// Whether row i is a folder's.
#[tactic(auto, unfolding(crate::specs::Cursor::is_folder))]
pub fn is_folder(t: &[u32], i: u32) -> bool
    ensures { result ≡ is_folder t.now i }
{
    match row_of(t, i) {
        Some(j) => table_row::word(t, j, 1) == 0,
        None => false,
    }
}

// The decision where the rows h are not folders on both sides: the first of document 01's four lines that fits. The tables stay
// three parameters, since Tables would ask callers for a length too.
#[tactic(auto, unfolding(crate::specs::Cursor::decision))]
pub fn decide(o: &[u32], l: &[u32], r: &[u32], h: Rows) -> Decision
    requires { (length o.now % 20 ≡ 0) × (length l.now % 20 ≡ 0) × (length r.now % 20 ≡ 0) }
    ensures { result ≡ decision o.now l.now r.now h }
{
    let a = h.o;
    let b = h.l;
    let c = h.r;
    if table_find::same_subtrees(l, b, r, c) {
        return Decision::Agreed(h);
    }
    if table_find::same_subtrees(l, b, o, a) {
        return Decision::LeftGets(h);
    }
    if table_find::same_subtrees(r, c, o, a) {
        return Decision::RightGets(h);
    }
    Decision::Clash(h)
}
