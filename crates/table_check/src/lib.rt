// The row rules: which row of a table is the lowest that breaks them, and which is the lowest twin.
#![tactic(auto)]

ghost use Rattle.std.specs.Prelude.{◌≡◌, true, ◌+◌, ◌-◌, ◌*◌, ◌≤◌, ◌<◌, length};
ghost use Rattle.tree.specs.Rules.{zeros};
ghost use Rattle.table_row.specs.Table.{row_at};
ghost use Rattle.table_rules.specs.Rules.{before, sized};
ghost use Rattle.table_rules.specs.Seen.{fit_after, fit_of, SeesRows, Sees};
ghost use Rattle.table_check.specs.Last.{Lasts, lasts_after};

use std::cmp::Ordering;
use table_rules::{Fault, Fit, Seen};
use tree::Profile;

// How a row follows a sibling that stands so to it.
fn fit_after(profile: Profile, o: Ordering) -> Fit
    ensures { result ≡ fit_after profile o }
{
    match o {
        Ordering::Less => Fit::Good,
        Ordering::Equal => match profile {
            Profile::Exact => Fit::Bad,
            Profile::Folded => Fit::Twin,
        },
        Ordering::Greater => Fit::Bad,
    }
}

// How row i follows the rows before it, of which last has the one that it would come after.
fn row_fit(profile: Profile, t: &[u32], i: usize, last: &[usize; 18]) -> Fit
    requires i_in_bounds { (20 * i + 20 ≤ length t.now) × (0 < i) }
    requires lasts { Lasts profile t.now i last.now }
    ensures { result ≡ fit_of profile (before t.now i) (row_at t.now i) }
{
    if table_row_rules::depth_ok(t, i) {
        if table_row_rules::name_ok(t, i) {
            if table_row_rules::kind_ok(t, i) {
                let d = table_row::wide(table_row::word(t, i, 0));
                let s = last[d];
                return fit_after(profile, table_row_rules::compare_rows(profile, t, s, i));
            }
        }
    }
    Fit::Bad
}

// After row i, of depth d: the next row of that depth comes after it, and one deeper is the first of its folder.
fn remember(last: &mut [usize; 18], d: usize, i: usize)
    requires { d ≤ 16 }
    ensures { last.new ≡ lasts_after d i last.old }
{
    last[d] = i;
    last[d + 1] = 0;
}

// The lowest row that breaks the rules, and the lowest that has the key of the sibling before it, after a first row of zeros. For
// each depth, last has the row that the next one of it comes after, or row 0, whose name is less than any, where there is none.
fn check_entries(profile: Profile, t: &[u32]) -> Seen
    requires { (20 ≤ length t.now) × (zeros (row_at t.now 0) ≡ true) }
    ensures { SeesRows profile t.now result }
{
    let n = t.len() / 20;
    let mut last = [0usize; 18];
    let mut twins = None;
    for i in 1..n {
        match row_fit(profile, t, i, &last) {
            Fit::Good => {}
            Fit::Twin => twins = twins.or(Some(i)),
            Fit::Bad => {
                let rows = Some(Fault::BadRow(i));
                return Seen { rows, twins };
            }
        }
        remember(&mut last, table_row::wide(table_row::word(t, i, 0)), i);
    }
    let rows = None;
    Seen { rows, twins }
}

// The same of all rows.
fn check_rows(profile: Profile, t: &[u32]) -> Seen
    requires { 20 ≤ length t.now }
    ensures { SeesRows profile t.now result }
{
    if table_names::all_zero(&t[..20]) {
        return check_entries(profile, t);
    }
    Seen {
        rows: Some(Fault::BadRow(0)),
        twins: None,
    }
}

// Whether a table is 20 words times 1 to 4,096.
fn is_sized(t: &[u32]) -> bool
    ensures { result ≡ sized t.now }
{
    let n = t.len() / 20;
    if t.len() % 20 != 0 {
        return false;
    }
    if n < 1 {
        return false;
    }
    n <= 4096
}

// What is wrong with a table.
pub fn check(profile: Profile, t: &[u32]) -> Seen
    ensures { Sees profile t.now result }
{
    if is_sized(t) {
        return check_rows(profile, t);
    }
    Seen {
        rows: Some(Fault::BadLength),
        twins: None,
    }
}
