// The way up from a row of a tree table.
#![tactic(auto)]

ghost use Rattle.std.specs.Prelude.{◌≡◌, ◌+◌, ◌*◌, ◌≤◌, length};
ghost use Rattle.table_route.specs.Route.{folder_of};

// The row of the folder in which row i stands: the last before it that is less deep.
pub fn folder_of(t: &[u32], i: usize) -> usize
    requires { 20 * i + 20 ≤ length t.now }
    ensures { result ≡ folder_of t.now i }
{
    let d = table_row::word(t, i, 0);
    for k in (0..i).rev() {
        if table_row::word(t, k, 0) < d {
            return k;
        }
    }
    0
}
