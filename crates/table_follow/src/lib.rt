// Where a path leads in a tree table: it is followed one name at a time, in the subtree that each name gives.
#![tactic(auto)]

ghost use Rattle.std.specs.Prelude.{◌≤◌, length};
ghost use Rattle.table_find.specs.Entry.{Finds};
ghost use Rattle.table_follow.specs.Follow.{follow};

// The row, in the rows t of a subtree, that a path leads to from its own row.
pub fn lookup(t: &[u32], path: &[[u32; 8]]) -> Option<usize>
    requires { 20 ≤ length t.now }
    ensures { Finds t.now (follow path.now t.now) result }
{
    if path.is_empty() {
        return Some(0);
    }
    let i = table_entry::find_child(t, 0, path[0])?;
    let e = table_find::subtree_end(t, i);
    let from = 20 * i;
    let to = 20 * e;
    let k = lookup(&t[from..to], &path[1..])?;
    Some(i + k)
}
