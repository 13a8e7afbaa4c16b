// An entry of a folder by its name.
#![tactic(auto)]

ghost use Rattle.std.specs.Prelude.{◌≡◌, ◌+◌, ◌*◌, ◌≤◌, length};
ghost use Rattle.tree.specs.Same.{same_words};
ghost use Rattle.table_row.specs.Table.{row_at, name as name_of};
ghost use Rattle.table_find.specs.Entry.{child, Finds};

// Whether row i is called name. The first word that differs tells, since names that begin alike are many; `==` on slices looks at
// all eight words where the first is the same.
fn is_called(t: &[u32], i: usize, name: [u32; 8]) -> bool
    requires { 20 * (i + 1) ≤ length t.now }
    ensures { result ≡ same_words name (name_of (row_at t.now i)) }
{
    let called = table_row::name(t, i);
    for k in 0..8 {
        if name[k] != called[k] {
            return false;
        }
    }
    true
}

// The row of the entry called name in the folder at row f.
pub fn find_child(t: &[u32], f: usize, name: [u32; 8]) -> Option<usize>
    requires { 20 * (f + 1) ≤ length t.now }
    ensures { Finds t.now (child t.now f name) result }
{
    let n = t.len() / 20;
    let d = t[20 * f];
    for i in f + 1..n {
        let e = t[20 * i];
        if e <= d {
            return None;
        }
        if e - d == 1 && is_called(t, i, name) {
            return Some(i);
        }
    }
    None
}
