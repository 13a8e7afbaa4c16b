// Reconciling three tables: the new archive, the new left, the new right and the list, with the tally by value.
#![tactic(auto)]

ghost use Rattle.plan_run.specs.Run.{lent, ReconcileContract};

use plan_run::Ran;
use plan_tally::Tally;
use tree::Profile;

// The whole run, the tally by value: what other functions call.
pub fn reconcile_plain(
    profile: Profile,
    o: &[u32],
    l: &[u32],
    r: &[u32],
    archive: &mut [u32],
    left: &mut [u32],
    right: &mut [u32],
    list: &mut [u32],
    old: Tally,
) -> Ran
    ensures { ReconcileContract profile o.now l.now r.now
        (lent archive.old left.old right.old list.old old)
        (lent archive.new left.new right.new list.new result.tally)
        result.answer }
{
    match plan_due::tables_due(profile, o, l, r) {
        Ok(_) => plan_carry_out::carry_out(profile, o, l, r, archive, left, right, list, old),
        Err(refusal) => Ran {
            answer: Err(refusal),
            tally: old,
        },
    }
}
