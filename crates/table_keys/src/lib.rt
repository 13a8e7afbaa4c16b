// A name's key, and a table of keys.
#![tactic(auto)]

ghost use Rattle.std.specs.Prelude.{◌≡◌, map, ◌+◌, ◌%◌, ◌≤◌, length, take, drop};
ghost use Rattle.tree.specs.declared.Profile.TheVariants.{Folded};
ghost use Rattle.tree.specs.Key.{lower_word, key};
ghost use Rattle.table_row.specs.Buffer.{written, over};
ghost use Rattle.table_row.specs.Keyed.{keyed};

use tree::Profile;

// The eight words of a name from a place on, letter case ignored.
fn lower_name(t: &mut [u32], at: usize)
    requires { at + 8 ≤ length t.old }
    ensures { t.new ≡ written t.old at (map lower_word (take 8 (drop at t.old))) }
{
    for word in &mut t[at..at + 8] {
        *word = table_compare::lower_word(*word);
    }
}

// A name's key.
pub fn key_name(profile: Profile, n: [u32; 8]) -> [u32; 8]
    ensures { result ≡ key profile n }
{
    match profile {
        Profile::Exact => n,
        Profile::Folded => n.map(
            |word: u32| -> u32
                ensures { result ≡ lower_word word }
            { table_compare::lower_word(word) },
        ),
    }
}

// The table of keys of t where letter case is ignored, at the start of out. All of it is copied at once, which is quicker than
// row by row.
pub fn key_table(t: &[u32], out: &mut [u32])
    requires { (length t.now % 20 ≡ 0) × (length t.now ≤ length out.old) }
    ensures { out.new ≡ over out.old (keyed Folded t.now) }
{
    table_row::copy_words(t, out, 0);
    let n = t.len() / 20;
    for i in 0..n {
        lower_name(out, 20 * i + 2);
    }
}
