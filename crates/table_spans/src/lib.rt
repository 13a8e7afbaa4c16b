// Where a path leads in the tables of a move: the parent's row, an entry's end, the source's words.
#![tactic(auto)]

ghost use Rattle.std.specs.Prelude.{◌≡◌, ◌+◌, ◌*◌, ◌≤◌, length};
ghost use Rattle.tree.specs.declared.Profile.TheVariants.{Exact};
ghost use Rattle.table_row.specs.Tree.{tree_of};
ghost use Rattle.table_rules.specs.Keyed.{Passes};
ghost use Rattle.table_find.specs.Entry.{Finds};
ghost use Rattle.table_follow.specs.Follow.{follow};
ghost use Rattle.table_stands.specs.Around.{entry_end};
ghost use Rattle.table_moved.specs.Pieces.{folder_at, Spans};

use table_moved::Span;

// The row that the path of a parent leads to, where that is a folder.
pub fn parent_row(t: &[u32], parent: &[[u32; 8]]) -> Option<usize>
    requires { Passes Exact t.now }
    ensures { Finds t.now (folder_at (tree_of t.now) parent.now) result }
{
    let i = table_follow::lookup(t, parent)?;
    if table_row::word(t, i, 1) == 0 {
        return Some(i);
    }
    None
}

// The row after the entry called name of the folder at row f; its place where there is no such entry.
pub fn entry_end(t: &[u32], f: usize, name: [u32; 8]) -> usize
    requires { 20 * (f + 1) ≤ length t.now }
    ensures { (result ≡ entry_end t.now f name) × (20 * result ≤ length t.now) }
{
    match table_entry::find_child(t, f, name) {
        Some(i) => table_find::subtree_end(t, i),
        None => table_place::place(t, f, name),
    }
}

// Where a table has the words of what it holds at a path: none for absence.
pub fn span_at(t: &[u32], path: &[[u32; 8]]) -> Span
    requires { 20 ≤ length t.now }
    ensures { Spans t.now (follow path.now t.now) result }
{
    match table_follow::lookup(t, path) {
        Some(i) => {
            let e = table_find::subtree_end(t, i);
            Span {
                from: 20 * i,
                to: 20 * e,
            }
        }
        None => Span { from: 0, to: 0 },
    }
}
