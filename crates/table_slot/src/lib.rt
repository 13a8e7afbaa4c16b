// A row put into its sorted place of a table: where a name goes among a folder's entries, by key, and the row put in there.
#![tactic(auto)]

ghost use Rattle.std.specs.Prelude.{◌≡◌, ◌+◌, ◌*◌, ◌-◌, ◌≤◌, length, take, drop};
ghost use Rattle.table_row.specs.Table.{row_at, rows};
ghost use Rattle.table_row.specs.Order.{ordered};
ghost use Rattle.table_row.specs.Buffer.{written};
ghost use Rattle.table_row.specs.Keyed.{keyed_row, keyed};
ghost use Rattle.tree.specs.Key.{key};
ghost use Rattle.table_slot.specs.Insert.{against as against_of, start_of, spot_in, spot_of, Sits, inserted};

use std::cmp::Ordering;
use tree::Profile;

// How a name stands to row i, among the entries of a folder of depth d.
fn against(profile: Profile, t: &[u32], i: usize, d: u32, name: [u32; 8]) -> Ordering
    requires { 20 * (i + 1) ≤ length t.now }
    ensures { result ≡ ordered (against_of d (key profile name) (keyed_row profile (row_at t.now i))) }
{
    let e = t[20 * i];
    if e <= d {
        return Ordering::Less;
    }
    if e - d == 1 {
        return table_compare::compare_keys(profile, &name, table_row::name(t, i));
    }
    Ordering::Greater
}

// The row that a name goes to among the rows from one on, in a folder of depth d; none where the name is taken.
fn spot_from(profile: Profile, t: &[u32], d: u32, from: usize, name: [u32; 8]) -> Option<usize>
    requires { 20 * from ≤ length t.now }
    ensures { Sits t.now (spot_in (key profile name) d from (drop from (rows (keyed profile t.now)))) result }
{
    let n = t.len() / 20;
    for i in from..n {
        match against(profile, t, i, d, name) {
            Ordering::Less => return Some(i),
            Ordering::Equal => return None,
            Ordering::Greater => {}
        }
    }
    Some(n)
}

// Where the search in the folder at row f starts: past the entry that was put in last, if the name comes after it.
fn start(profile: Profile, t: &[u32], f: usize, last: usize, name: [u32; 8]) -> usize
    requires { (20 * (f + 1) ≤ length t.now) × (20 * (last + 1) ≤ length t.now) }
    ensures { (result ≡ start_of (keyed profile t.now) f last (key profile name)) × (20 * result ≤ length t.now) }
{
    if f < last && table_compare::compare_keys(profile, &name, table_row::name(t, last)).is_gt() {
        return last + 1;
    }
    f + 1
}

// The row that a name goes to among the entries of the folder at row f, of which the one at row last was put in last; last
// is f where there is none. None where the name is taken.
pub fn find_spot(
    profile: Profile,
    t: &[u32],
    f: usize,
    last: usize,
    name: [u32; 8],
) -> Option<usize>
    requires { (20 * (f + 1) ≤ length t.now) × (20 * (last + 1) ≤ length t.now) }
    ensures { Sits t.now (spot_of (keyed profile t.now) f last (key profile name)) result }
{
    let from = start(profile, t, f, last, name);
    spot_from(profile, t, t[20 * f], from, name)
}

// The words from a to e, twenty places on.
fn shift(t: &mut [u32], a: usize, e: usize)
    requires { (a ≤ e) × (e + 20 ≤ length t.old) }
    ensures { t.new ≡ written t.old (a + 20) (take (e - a) (drop a t.old)) }
{
    t.copy_within(a..e, a + 20);
}

// A row put in as row i of the first count rows of a table.
pub fn insert(t: &mut [u32], count: usize, i: usize, words: [u32; 20])
    requires { (i ≤ count) × (20 * (count + 1) ≤ length t.old) }
    ensures { t.new ≡ inserted t.old (20 * count) (20 * i) words }
{
    let a = 20 * i;
    let e = 20 * count;
    shift(t, a, e);
    table_row::copy_words(&words, t, a);
}
