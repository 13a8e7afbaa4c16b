// Reconciling three tables, with the tally in a record that the caller lends.
#![tactic(auto)]

ghost use Rattle.std.specs.Prelude.{◌*◌};
ghost use Rattle.plan_run.specs.Run.{lent, ReconcileContract};

use plan_run::Reconciled;
use plan_tally::Tally;
use tree::Profile;

// Reconciles left and right by the archive: the new tables, the list and the tally.
pub fn reconcile(
    profile: Profile,
    o: &[u32],
    l: &[u32],
    r: &[u32],
    archive: &mut [u32],
    left: &mut [u32],
    right: &mut [u32],
    list: &mut [u32],
    out: &mut Tally,
) -> Reconciled
    ensures { ReconcileContract profile o.now l.now r.now
        (lent archive.old left.old right.old list.old out.old)
        (lent archive.new left.new right.new list.new out.new)
        result }
{
    let ran = reconcile_plain::reconcile_plain(profile, o, l, r, archive, left, right, list, *out);
    *out = ran.tally;
    ran.answer
}
