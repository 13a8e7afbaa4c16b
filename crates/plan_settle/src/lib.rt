// Three tables settled in a profile: as they are, or as tables of keys.
#![tactic(auto)]

ghost use Rattle.std.specs.Prelude.{◌+◌, ◌≤◌, length};
ghost use Rattle.tree.specs.declared.Profile.TheVariants.{Folded};
ghost use Rattle.table_row.specs.Keyed.{keyed};
ghost use Rattle.plan.specs.Settle.{settled};
ghost use Rattle.plan.specs.Writes.{Fills};

use plan_cursor::Tables;
use tree::Profile;

// The plan of three tables, their names matched with letter case ignored, at the start of a buffer; how many words it has. The
// tables' keys are made in so many words, one table's after the other's. The frame is this function's own: a run of small tables,
// or one that needs no keys, has no room for the largest.
#[inline(never)]
fn settle_keyed<const ROOM: usize>(t: Tables, plan: &mut [u32]) -> usize
    requires room { length t.o.now + length t.l.now + length t.r.now ≤ ROOM }
    requires most { ROOM ≤ 245760 }
    requires fits { length (settled (keyed Folded t.o.now) (keyed Folded t.l.now) (keyed Folded t.r.now)) ≤ length plan.old }
    ensures { Fills plan.old
        (settled (keyed Folded t.entry.o.now) (keyed Folded t.entry.l.now) (keyed Folded t.entry.r.now))
        plan.new
        result }
{
    let mut keys = [0u32; ROOM];
    let (o, others) = keys.split_at_mut(t.o.len());
    let (l, others) = others.split_at_mut(t.l.len());
    let (r, _) = others.split_at_mut(t.r.len());
    table_keys::key_table(t.o, o);
    table_keys::key_table(t.l, l);
    table_keys::key_table(t.r, r);
    plan_write::settle(Tables { o, l, r }, plan)
}

// The plan of three tables, their names matched by their keys, at the start of a buffer; how many words it has. Keys are made in
// one of five sizes, by the rows of all three tables: zeroing the largest would be most of the time of small tables, also where
// one of them is large.
pub fn settle_in(profile: Profile, t: Tables, plan: &mut [u32]) -> usize
    requires { length (settled (keyed profile t.o.now) (keyed profile t.l.now) (keyed profile t.r.now)) ≤ length plan.old }
    ensures { Fills plan.old
        (settled (keyed profile t.entry.o.now) (keyed profile t.entry.l.now) (keyed profile t.entry.r.now))
        plan.new
        result }
{
    match profile {
        Profile::Exact => plan_write::settle(t, plan),
        Profile::Folded => {
            let n = t.o.len() + t.l.len() + t.r.len();
            if n <= 3840 {
                return settle_keyed::<3840>(t, plan);
            }
            if n <= 12800 {
                return settle_keyed::<12800>(t, plan);
            }
            if n <= 30720 {
                return settle_keyed::<30720>(t, plan);
            }
            if n <= 102400 {
                return settle_keyed::<102400>(t, plan);
            }
            settle_keyed::<245760>(t, plan)
        }
    }
}
