// A row of one table, spelled as its counterpart in a folder of another table is.
#![tactic(auto)]

ghost use Rattle.std.specs.Prelude.{◌≡◌, ◌+◌, ◌*◌, ◌≤◌, length};
ghost use Rattle.tree.specs.Key.{key};
ghost use Rattle.table_row.specs.Buffer.{written};
ghost use Rattle.table_row.specs.Table.{row_at, name, called};
ghost use Rattle.table_find.specs.Entry.{Finds, Inside};
ghost use Rattle.table_respell.specs.Respell.{counterpart as counterpart_of, spelled};

// The name of row i.
pub fn name_of(t: &[u32], i: usize) -> [u32; 8]
    requires { 20 * (i + 1) ≤ length t.now }
    ensures { result ≡ name (row_at t.now i) }
{
    let mut words = [0; 8];
    words.copy_from_slice(table_row::name(t, i));
    words
}

// The entry of a name's key in a folder that there may be.
pub fn counterpart(keys: &[u32], folder: Option<usize>, key: [u32; 8]) -> Option<usize>
    requires { Inside keys.now folder }
    ensures { Finds keys.now (counterpart_of keys.now folder key) result }
{
    table_entry::find_child(keys, folder?, key)
}

// One row with another name.
fn put_named(src: &[u32], name: &[u32], res: &mut [u32], at: usize)
    requires { (length src.now ≡ 20) × (length name.now ≡ 8) × (at + 20 ≤ length res.old) }
    ensures { res.new ≡ written res.old at (called name.now src.now) }
{
    let from = table_row::copy_words(&src[..2], res, at);
    let to = table_row::copy_words(name, res, from);
    table_row::copy_words(&src[10..], res, to);
}

// One row, called as the row of the table that was found.
pub fn spell_row(table: &[u32], found: Option<usize>, src: &[u32], res: &mut [u32], at: usize)
    requires { Inside table.now found × (length src.now ≡ 20) × (at + 20 ≤ length res.old) }
    ensures { res.new ≡ written res.old at (spelled table.now found src.now) }
{
    match found {
        Some(i) => put_named(src, table_row::name(table, i), res, at),
        None => {
            table_row::copy_words(src, res, at);
        }
    }
}
