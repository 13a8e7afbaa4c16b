// The answer that three tables and four rooms are due.
#![tactic(auto)]

ghost use Rattle.std.specs.Prelude.{◌≡◌, ◌/◌};
ghost use Rattle.plan_run.specs.Run.{twins_of, tables_due, rooms_due};

use plan_run::Counts;
use table_rules::{Answer, Seen};
use tree::Profile;

// Number 16 of archive, left and right.
fn twins_due(o: Seen, l: Seen, r: Seen) -> Answer
    ensures { result ≡ twins_of o.twins l.twins r.twins }
{
    table_answers::twins_refusal(o, 1)?;
    table_answers::twins_refusal(l, 2)?;
    table_answers::twins_refusal(r, 3)
}

// The tables' faults: 1 and 2 of archive, left and right, then 16 of each.
pub fn tables_due(profile: Profile, o: &[u32], l: &[u32], r: &[u32]) -> Answer
    ensures { result ≡ tables_due profile o.now l.now r.now }
{
    let a = table_check::check(profile, o);
    let b = table_check::check(profile, l);
    let c = table_check::check(profile, r);
    table_answers::refusal(a, 1)?;
    table_answers::refusal(b, 2)?;
    table_answers::refusal(c, 3)?;
    twins_due(a, b, c)
}

// The rooms' faults: archive, left, right, list. The last four are the words lent.
pub fn rooms_due(c: Counts, archive: usize, left: usize, right: usize, list: usize) -> Answer
    ensures { result ≡ rooms_due c archive left right list }
{
    let first = table_answers::has_room(c.archive, archive);
    let second = table_answers::has_room(c.left, left);
    let third = table_answers::has_room(c.right, right);
    table_answers::unless_refused(first, 3, 1)?;
    table_answers::unless_refused(second, 3, 2)?;
    table_answers::unless_refused(third, 3, 3)?;
    table_answers::unless_refused(c.list <= list / 3, 3, 4)
}
