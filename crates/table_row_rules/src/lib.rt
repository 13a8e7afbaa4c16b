// What is asked of a row beside those before it: depth, name, kind, and the order of two rows.
#![tactic(auto)]

ghost use Rattle.std.specs.Prelude.{◌≡◌, ◌+◌, ◌-◌, ◌*◌, ◌≤◌, ◌<◌, length};
ghost use Rattle.tree.specs.Name.{cmp};
ghost use Rattle.tree.specs.Key.{key};
ghost use Rattle.tree.specs.Rules.{good_name};
ghost use Rattle.table_row.specs.Order.{ordered};
ghost use Rattle.table_row.specs.Table.{row_at, name};
ghost use Rattle.table_rules.specs.Rules.{depth_rule, kind_rule};

use std::cmp::Ordering;
use tree::Profile;

// Whether row i is not too deep, for any row and for the row before it.
pub fn depth_ok(t: &[u32], i: usize) -> bool
    requires { (20 * i + 20 ≤ length t.now) × (0 < i) }
    ensures { result ≡ depth_rule (row_at t.now (i - 1)) (row_at t.now i) }
{
    let d = table_row::word(t, i, 0);
    if d < 1 {
        return false;
    }
    if 16 < d {
        return false;
    }
    let e = table_row::word(t, i - 1, 0);
    let k = table_row::word(t, i - 1, 1);
    if k == 0 { d - 1 <= e } else { d <= e }
}

// Whether row i has a name that an entry may have.
pub fn name_ok(t: &[u32], i: usize) -> bool
    requires { 20 * i + 20 ≤ length t.now }
    ensures { result ≡ good_name (name (row_at t.now i)) }
{
    let name = table_row::name(t, i);
    table_names::short_name(name) || table_names::good_name(name)
}

// Whether row i is a file's, or a folder's with no size and no digest.
pub fn kind_ok(t: &[u32], i: usize) -> bool
    requires { 20 * i + 20 ≤ length t.now }
    ensures { result ≡ kind_rule (row_at t.now i) }
{
    let k = table_row::word(t, i, 1);
    if k == 0 {
        let a = 20 * i + 10;
        let b = 20 * i + 20;
        return table_names::all_zero(&t[a..b]);
    }
    k == 1
}

// The order of the names of rows i and j by their keys; compare_names of table_compare is that of names as they are in two tables.
pub fn compare_rows(profile: Profile, t: &[u32], i: usize, j: usize) -> Ordering
    requires { (20 * i + 20 ≤ length t.now) × (20 * j + 20 ≤ length t.now) }
    ensures { result ≡ ordered (cmp (key profile (name (row_at t.now i))) (key profile (name (row_at t.now j)))) }
{
    table_compare::compare_keys(profile, table_row::name(t, i), table_row::name(t, j))
}
