// The words of a tree table, twenty to a row: one word, a row or its name, words compared, words copied.
#![tactic(auto)]

ghost use Rattle.std.specs.Prelude.{◌≡◌, ◌+◌, ◌*◌, ◌≤◌, ◌<◌, length, get_or};
ghost use Rattle.tree.specs.Same.{same_words};
ghost use Rattle.table_row.specs.Table.{row_at, name};
ghost use Rattle.table_row.specs.Buffer.{written};

// Word j of row i. A row is told by its table and its number, and not by a slice of its own: its place in the table is what is
// asked for and written, and a caller would owe the same bound to the slice.
pub fn word(t: &[u32], i: usize, j: usize) -> u32
    requires { (20 * i + 20 ≤ length t.now) × (j < 20) }
    ensures { result ≡ get_or (row_at t.now i) j 0 }
{
    t[20 * i + j]
}

// A word as an index, with its bound: std has no From for it.
pub fn wide(x: u32) -> usize
    ensures { (result ≡ x) × (result < 4294967296) }
{
    x as usize
}

// Whether two lists of words are the same, from the last word back: a day and its correction have one name and differ in
// the digest, which stands last.
pub fn same_words(a: &[u32], b: &[u32]) -> bool
    ensures { result ≡ same_words a.now b.now }
{
    if a.len() != b.len() {
        return false;
    }
    for k in (0..a.len()).rev() {
        if a[k] != b[k] {
            return false;
        }
    }
    true
}

// Row i.
pub fn row(t: &[u32], i: usize) -> &[u32]
    requires { 20 * i + 20 ≤ length t.now }
    ensures { (result.now ≡ row_at t.now i) × (length result.now ≡ 20) }
{
    let a = 20 * i;
    let e = a + 20;
    &t[a..e]
}

// The name of row i.
pub fn name(t: &[u32], i: usize) -> &[u32]
    requires { 20 * i + 20 ≤ length t.now }
    ensures { (result.now ≡ name (row_at t.now i)) × (length result.now ≡ 8) }
{
    let a = 20 * i + 2;
    let e = a + 8;
    &t[a..e]
}

// Whether row i of a and row j of b are the same.
pub fn same_rows(a: &[u32], i: usize, b: &[u32], j: usize) -> bool
    requires { (20 * i + 20 ≤ length a.now) × (20 * j + 20 ≤ length b.now) }
    ensures { result ≡ same_words (row_at a.now i) (row_at b.now j) }
{
    same_words(row(a, i), row(b, j))
}

// All of src into dst at place at; the next place. A buffer and a place in it are no struct: the laws of `written` and `Writes` are
// on both, and most callers write once. Word by word, since `copy_from_slice` of a length that is not known calls memmove, and the
// archive for C needs no name from outside but memcpy and memset.
pub fn copy_words(src: &[u32], dst: &mut [u32], at: usize) -> usize
    requires { at + length src.now ≤ length dst.old }
    ensures { (result ≡ at + length src.now) × (dst.new ≡ written dst.old at src.now) }
{
    for i in 0..src.len() {
        dst[at + i] = src[i];
    }
    at + src.len()
}
