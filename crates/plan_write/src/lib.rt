// Settling: the entries of three folders merged by name, and a plan item of four words for each.
#![tactic(auto)]

ghost use Rattle.std.specs.Prelude.{◌+◌, ◌-◌, ◌≤◌, ◌<◌, length};
ghost use Rattle.plan.specs.Settle.{entry, folder, settled};
ghost use Rattle.plan.specs.Writes.{Writes, Fills};

use plan_cursor::{Decision, Rows, Tables};

// The entries of three folders, of depth d from the heads h on, merged by name: their items into the plan at place at;
// the next place. k is the depth left.
#[cycle(settle_entry_settle_folder)]
fn settle_folder(t: Tables, h: Rows, d: u32, k: usize, plan: &mut [u32], at: usize) -> usize
    requires k_bound { d + k ≤ 17 }
    requires h_in_bounds { at + length (folder t.o.now t.l.now t.r.now k d h) ≤ length plan.old }
    ensures { Writes plan.old at (folder t.entry.o.now t.entry.l.now t.entry.r.now k d h) plan.new result }
{
    let mut g = h;
    let mut q = at;
    let n = t.o.len() / 20 + t.l.len() / 20 + t.r.len() / 20;
    for _ in 0..n {
        if plan_steps::ended_at(t, g) {
            return q;
        }
        let e = plan_cursor::least_of(t, g);
        q = settle_entry(t, e, d, k, plan, q);
        g = plan_steps::past_at(t, d, g, e);
    }
    q
}

// One entry, of depth d: one that is a folder on both sides is settled as a folder. k is the depth left.
#[cycle(settle_entry_settle_folder)]
fn settle_entry(t: Tables, h: Rows, d: u32, k: usize, plan: &mut [u32], at: usize) -> usize
    requires k_bound { d + k ≤ 17 }
    requires h_in_bounds { at + length (entry t.o.now t.l.now t.r.now k d h) ≤ length plan.old }
    ensures { Writes plan.old at (entry t.entry.o.now t.entry.l.now t.entry.r.now k d h) plan.new result }
{
    if 0 < k {
        if plan_steps::both_at(t, h) {
            let q = plan_steps::push(plan, at, Decision::Agreed(h));
            let g = plan_steps::firsts_at(t, d + 1, h);
            return settle_folder(t, g, d + 1, k - 1, plan, q);
        }
    }
    let x = plan_cursor::decide(t.o, t.l, t.r, h);
    plan_steps::push(plan, at, x)
}

// The plan of three trees, from the roots' entries on, at the start of plan; how many words it has.
pub fn settle(t: Tables, plan: &mut [u32]) -> usize
    requires { length (settled t.o.now t.l.now t.r.now) ≤ length plan.old }
    ensures { Fills plan.old (settled t.entry.o.now t.entry.l.now t.entry.r.now) plan.new result }
{
    let h = plan_steps::firsts_at(t, 1, Rows { o: 0, l: 0, r: 0 });
    settle_folder(t, h, 1, 16, plan, 0)
}
