// A run over tables that pass, with a scratch array by their rows.
#![tactic(auto)]

ghost use Rattle.std.specs.Prelude.{◌*◌, ◌≤◌};
ghost use Rattle.table_rules.specs.Keyed.{Passes};
ghost use Rattle.plan_run.specs.Run.{lent};
ghost use Rattle.plan_run.specs.Steps.{rows_of, Settles};

use plan_run::Ran;
use plan_tally::Tally;
use tree::Profile;

// A reconciliation of tables that keep the rules, with a plan of so many words in a frame of its own: a run of small tables has
// no room for the largest plan.
#[inline(never)]
fn with_room<const ROOM: usize>(
    profile: Profile,
    o: &[u32],
    l: &[u32],
    r: &[u32],
    archive: &mut [u32],
    left: &mut [u32],
    right: &mut [u32],
    list: &mut [u32],
    old: Tally,
) -> Ran
    requires passes { Passes profile o.now × Passes profile l.now × Passes profile r.now }
    requires room { 4 * rows_of o.now l.now r.now ≤ ROOM }
    requires most { ROOM ≤ 49152 }
    ensures { Settles profile o.now l.now r.now
        (lent archive.old left.old right.old list.old old)
        (lent archive.new left.new right.new list.new result.tally)
        result.answer }
{
    let mut plan = [0u32; ROOM];
    plan_lent::with_plan(profile, o, l, r, archive, left, right, list, old, &mut plan)
}

// The same with a plan of four words a row in one of three sizes: of small tables most of the time would be spent on zeroing the
// largest.
pub fn carry_out(
    profile: Profile,
    o: &[u32],
    l: &[u32],
    r: &[u32],
    archive: &mut [u32],
    left: &mut [u32],
    right: &mut [u32],
    list: &mut [u32],
    old: Tally,
) -> Ran
    requires { Passes profile o.now × Passes profile l.now × Passes profile r.now }
    ensures { Settles profile o.now l.now r.now
        (lent archive.old left.old right.old list.old old)
        (lent archive.new left.new right.new list.new result.tally)
        result.answer }
{
    let n = o.len() / 20 + l.len() / 20 + r.len() / 20;
    if n <= 128 {
        return with_room::<512>(profile, o, l, r, archive, left, right, list, old);
    }
    if n <= 1024 {
        return with_room::<4096>(profile, o, l, r, archive, left, right, list, old);
    }
    with_room::<49152>(profile, o, l, r, archive, left, right, list, old)
}
