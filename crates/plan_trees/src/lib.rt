// The new archive, left and right, each counted and written by one loop over the plan.
#![tactic(auto)]

ghost use Rattle.std.specs.Prelude.{◌≡◌, ◌+◌, ◌-◌, ◌*◌, ◌≤◌, length};
ghost use Rattle.plan.specs.Writes.{Fills};
ghost use Rattle.plan_results.specs.Decisions.{decided};
ghost use Rattle.plan_results.specs.Pieces.{new_tree};

use plan_cursor::Tables;
use plan_results::Tree;

// How many words a new tree has. A plan has no more items than the three tables have rows, 12,288 at most. To count and to write
// stay two loops, in the list too: they share their laws, and one loop over a closure would have to say what each call leaves. That
// left has a row is no fact of Tables: settling asks none.
pub fn count_tree(t: Tables, tree: Tree, plan: &[u32]) -> usize
    requires in_bounds { 20 ≤ length t.l.now }
    requires few { length plan.now ≤ 49152 }
    ensures { result ≡ length (new_tree tree t.entry.o.now t.entry.l.now t.entry.r.now (decided plan.now)) }
{
    let mut sum = 20;
    for k in 0..plan.len() / 4 {
        let s = plan_decode::takes(tree, plan_decode::decode(plan, k));
        sum += plan_pieces::source_len(t, s);
    }
    sum
}

// A new tree at the start of out; how many words it has.
pub fn write_tree(t: Tables, tree: Tree, plan: &[u32], out: &mut [u32]) -> usize
    requires in_bounds { 20 ≤ length t.l.now }
    requires plan_in_bounds { length (new_tree tree t.o.now t.l.now t.r.now (decided plan.now)) ≤ length out.old }
    ensures { Fills out.old (new_tree tree t.entry.o.now t.entry.l.now t.entry.r.now (decided plan.now)) out.new result }
{
    let mut at = table_row::copy_words(&t.l[0..20], out, 0);
    for k in 0..plan.len() / 4 {
        let d = plan_decode::decode(plan, k);
        at = plan_pieces::write_piece(t, tree, d, out, at);
    }
    at
}
