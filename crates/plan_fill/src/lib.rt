// The results of a plan, counted and written into the lent buffers.
#![tactic(auto)]

ghost use Rattle.std.specs.Prelude.{◌≡◌, ◌*◌, ◌/◌, ◌≤◌, length};
ghost use Rattle.plan_results.specs.Decisions.{decided};
ghost use Rattle.plan_run.specs.Steps.{planned_counts, planned_words, Spacious, Wrote};

use plan_cursor::Tables;
use plan_results::Tree;
use plan_run::Counts;

// The rows and entries that a plan gives.
pub fn counts_of(t: Tables, plan: &[u32]) -> Counts
    requires in_bounds { 20 ≤ length t.l.now }
    requires few { length plan.now ≤ 49152 }
    ensures { result ≡ planned_counts t.entry.o.now t.entry.l.now t.entry.r.now (decided plan.now) }
{
    let archive = plan_trees::count_tree(t, Tree::Archive, plan);
    let left = plan_trees::count_tree(t, Tree::Left, plan);
    let right = plan_trees::count_tree(t, Tree::Right, plan);
    let list = plan_list::count_list(plan);
    Counts {
        archive: archive / 20,
        left: left / 20,
        right: right / 20,
        list: list / 3,
    }
}

// The results that a plan gives, each at the start of its buffer.
pub fn write_results(
    t: Tables,
    plan: &[u32],
    archive: &mut [u32],
    left: &mut [u32],
    right: &mut [u32],
    list: &mut [u32],
)
    requires in_bounds { 20 ≤ length t.l.now }
    requires spacious { Spacious (planned_words t.o.now t.l.now t.r.now (decided plan.now)) archive.old left.old right.old list.old }
    ensures { Wrote (planned_words t.entry.o.now t.entry.l.now t.entry.r.now (decided plan.now))
        archive.old left.old right.old list.old
        archive.new left.new right.new list.new }
{
    plan_trees::write_tree(t, Tree::Archive, plan, archive);
    plan_trees::write_tree(t, Tree::Left, plan, left);
    plan_trees::write_tree(t, Tree::Right, plan, right);
    plan_list::write_list(plan, list);
}
