// The place of an entry among the others of a folder.
#![tactic(auto)]

ghost use Rattle.std.specs.Prelude.{◌≡◌, ◌+◌, ◌*◌, ◌≤◌, length};
ghost use Rattle.table_row.specs.Table.{row_at, name as name_of};
ghost use Rattle.table_find.specs.Entry.{up_to, place as place_of};

// Whether name does not come after the name of row i.
fn up_to(t: &[u32], i: usize, name: [u32; 8]) -> bool
    requires { 20 * (i + 1) ≤ length t.now }
    ensures { result ≡ up_to name (name_of (row_at t.now i)) }
{
    table_compare::compare_words(&name, table_row::name(t, i)).is_le()
}

// Where the entry called name stands, or would be put in, in the folder at row f: the first entry whose name is not
// less, else the end of the folder's subtree.
pub fn place(t: &[u32], f: usize, name: [u32; 8]) -> usize
    requires { 20 * (f + 1) ≤ length t.now }
    ensures { (result ≡ place_of t.now f name) × (20 * result ≤ length t.now) }
{
    let n = t.len() / 20;
    let d = t[20 * f];
    for i in f + 1..n {
        let e = t[20 * i];
        if e <= d {
            return i;
        }
        if e - d == 1 && up_to(t, i, name) {
            return i;
        }
    }
    n
}
