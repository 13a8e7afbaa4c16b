// Where a row's subtree ends, its words, and whether two subtrees are the same.
#![tactic(auto)]

ghost use Rattle.std.specs.Prelude.{◌≡◌, true, ◌+◌, ◌*◌, ◌%◌, ◌≤◌, length};
ghost use Rattle.tree.specs.Same.{same_words};
ghost use Rattle.table_row.specs.Table.{row_at};
ghost use Rattle.table_find.specs.Subtree.{end_of, subtree};

// The first row after row i whose depth is not greater, or the number of rows. Rows are searched one by one, since a table is
// words that C lends. Each search has a loop of its own: their laws (`run`, `seek`, `spot_in`, `from`) are not one, and a closure
// for the test would have to say what each passes over.
pub fn subtree_end(t: &[u32], i: usize) -> usize
    requires { 20 * (i + 1) ≤ length t.now }
    ensures { (result ≡ end_of t.now i) × (20 * result ≤ length t.now) }
{
    let n = t.len() / 20;
    let d = t[20 * i];
    for e in i + 1..n {
        if t[20 * e] <= d {
            return e;
        }
    }
    n
}

// The words of the subtree at row i; none where there is no such row.
pub fn part(t: &[u32], i: u32) -> &[u32]
    requires { length t.now % 20 ≡ 0 }
    ensures { result.now ≡ subtree t.now i }
{
    let j = table_row::wide(i);
    if j < t.len() / 20 {
        let a = 20 * j;
        let last = subtree_end(t, j);
        let e = 20 * last;
        &t[a..e]
    } else {
        &t[0..0]
    }
}

// Whether the subtrees at row i of w and row j of v are the same where these rows are: as many rows, and each the same.
fn same_below(w: &[u32], i: usize, v: &[u32], j: usize) -> bool
    requires { (20 * (i + 1) ≤ length w.now) × (20 * (j + 1) ≤ length v.now) × (same_words (row_at w.now i) (row_at v.now j) ≡ true) }
    ensures { result ≡ same_words (subtree w.now i) (subtree v.now j) }
{
    let n = subtree_end(w, i) - i;
    let m = subtree_end(v, j) - j;
    if n != m {
        return false;
    }
    for k in 1..n {
        if !table_row::same_rows(w, i + k, v, j + k) {
            return false;
        }
    }
    true
}

// Whether the subtrees at row i of w and row j of v are the same; a row that is not there has no words. The rows themselves are
// compared before the ends of their subtrees are looked for.
pub fn same_subtrees(w: &[u32], i: u32, v: &[u32], j: u32) -> bool
    requires { (length w.now % 20 ≡ 0) × (length v.now % 20 ≡ 0) }
    ensures { result ≡ same_words (subtree w.now i) (subtree v.now j) }
{
    let a = table_row::wide(i);
    let b = table_row::wide(j);
    if a < w.len() / 20 {
        if b < v.len() / 20 {
            if table_row::same_rows(w, a, v, b) {
                return same_below(w, a, v, b);
            }
        }
        return false;
    }
    b >= v.len() / 20
}
