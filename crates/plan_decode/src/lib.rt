// One item of the plan as a decision, and what a result takes by it.
#![tactic(auto)]

ghost use Rattle.std.specs.Prelude.{◌≡◌, ◌+◌, ◌-◌, ◌*◌, ◌%◌, ◌≤◌, length, drop};
ghost use Rattle.table_row.specs.Table.{row_at};
ghost use Rattle.plan_results.specs.Decisions.{decision_of};
ghost use Rattle.plan_results.specs.Pieces.{source_of};

use plan_cursor::{Decision, Rows};
use plan_results::{Source, Tree};

// Item k of a plan: the number that words_of in plan_steps wrote, as the enum that it stands for. A plan is words in the
// contracts of what reads it (`decided`).
pub fn decode(plan: &[u32], k: usize) -> Decision
    requires { 4 * k + 4 ≤ length plan.now }
    ensures { result ≡ decision_of (drop (4 * k) plan.now) }
{
    let p = 4 * k;
    let o = plan[p + 1];
    let l = plan[p + 2];
    let r = plan[p + 3];
    let h = Rows { o, l, r };
    match plan[p] {
        0 => Decision::Agreed(h),
        1 => Decision::LeftGets(h),
        2 => Decision::RightGets(h),
        _ => Decision::Clash(h),
    }
}

// Row i of a table; nothing where there is no such row.
pub fn one_row(t: &[u32], i: u32) -> &[u32]
    requires { length t.now % 20 ≡ 0 }
    ensures { (result.now ≡ row_at t.now i) × (length result.now % 20 ≡ 0) }
{
    let j = table_row::wide(i);
    if j < t.len() / 20 {
        table_row::row(t, j)
    } else {
        &t[0..0]
    }
}

// What a new tree takes by a decision.
pub fn takes(tree: Tree, d: Decision) -> Source
    ensures { result ≡ source_of d tree }
{
    match d {
        Decision::Agreed(h) => match tree {
            Tree::Archive => Source::LeftRow(h.l),
            Tree::Left => Source::LeftRow(h.l),
            Tree::Right => Source::RightRow(h.r),
        },
        Decision::LeftGets(h) => Source::RightPart(h.r),
        Decision::RightGets(h) => Source::LeftPart(h.l),
        Decision::Clash(h) => match tree {
            Tree::Archive => Source::OldPart(h.o),
            Tree::Left => Source::LeftPart(h.l),
            Tree::Right => Source::RightPart(h.r),
        },
    }
}
