// A run over tables that pass, with a plan that is lent: settled, counted, tried for room, written and tallied.
#![tactic(auto)]

ghost use Rattle.std.specs.Prelude.{◌*◌, ◌≤◌, length};
ghost use Rattle.table_rules.specs.Keyed.{Passes};
ghost use Rattle.plan_run.specs.Run.{lent};
ghost use Rattle.plan_run.specs.Steps.{rows_of, Settles};

use plan_cursor::Tables;
use plan_run::Ran;
use plan_tally::Tally;
use tree::Profile;

// A reconciliation of tables that keep the rules: the plan is made, then the rooms are tried, then all is written. The four lent
// buffers stay apart, as C lends them: `lent` is their record in each contract, and each writer takes one of them. The rules hold
// of each table by itself.
pub fn with_plan(
    profile: Profile,
    o: &[u32],
    l: &[u32],
    r: &[u32],
    archive: &mut [u32],
    left: &mut [u32],
    right: &mut [u32],
    list: &mut [u32],
    old: Tally,
    plan: &mut [u32],
) -> Ran
    requires passes { Passes profile o.now × Passes profile l.now × Passes profile r.now }
    requires r_in_bounds { 4 * rows_of o.now l.now r.now ≤ length plan.old }
    ensures { Settles profile o.now l.now r.now
        (lent archive.old left.old right.old list.old old)
        (lent archive.new left.new right.new list.new result.tally)
        result.answer }
{
    let t = Tables { o, l, r };
    let n = plan_settle::settle_in(profile, t, plan);
    let items = &plan[..n];
    let c = plan_fill::counts_of(t, items);
    let due = plan_due::rooms_due(c, archive.len(), left.len(), right.len(), list.len());
    match due {
        Ok(_) => {
            plan_fill::write_results(t, items, archive, left, right, list);
            let tally = plan_tally::counts(&list[..3 * c.list]);
            Ran {
                answer: Ok(c),
                tally,
            }
        }
        Err(refusal) => Ran {
            answer: Err(refusal),
            tally: old,
        },
    }
}
