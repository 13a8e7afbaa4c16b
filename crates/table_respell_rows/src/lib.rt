// The rows of a part of one table, spelled as the entries of a folder of another table are.
#![tactic(auto)]

ghost use Rattle.std.specs.Prelude.{◌≡◌, ◌+◌, ◌*◌};
ghost use Rattle.tree.specs.declared.Profile.TheVariants.{Folded};
ghost use Rattle.tree.specs.Key.{key};
ghost use Rattle.table_row.specs.Buffer.{written};
ghost use Rattle.table_respell.specs.Respell.{respelled, Fit};

use tree::Profile;

// All rows of words, one after the other; a row's folder is the last row before it that is one less deep.
fn spell_rows(table: &[u32], keys: &[u32], f: usize, words: &[u32], res: &mut [u32], at: usize)
    requires { Fit table.now keys.now f words.now res.old at }
    ensures { res.new ≡ written res.old at (respelled Folded table.now keys.now f words.now) }
{
    let n = words.len() / 20;
    let mut opened = [Some(f); 17];
    for i in 0..n {
        let a = 20 * i;
        let e = a + 20;
        let d = table_row::wide(words[a]);
        let folder = opened[d - 1];
        let key = table_keys::key_name(Profile::Folded, table_respell::name_of(words, i));
        let found = table_respell::counterpart(keys, folder, key);
        opened[d] = found;
        table_respell::spell_row(table, found, &words[a..e], res, at + a);
    }
}

// Words as rows among the entries of the folder at row f: as they are, or with the names that the folder has at every depth.
pub fn put_spelled(
    profile: Profile,
    table: &[u32],
    keys: &[u32],
    f: usize,
    words: &[u32],
    res: &mut [u32],
    at: usize,
)
    requires { Fit table.now keys.now f words.now res.old at }
    ensures { res.new ≡ written res.old at (respelled profile table.now keys.now f words.now) }
{
    match profile {
        Profile::Exact => {
            table_row::copy_words(words, res, at);
        }
        Profile::Folded => {
            spell_rows(table, keys, f, words, res, at);
        }
    }
}
