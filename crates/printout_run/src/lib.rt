// What is printed for three tables: their plan.
#![tactic(auto)]

ghost use Rattle.std.specs.Prelude.{◌≤◌, ◌^◌, length};
ghost use Rattle.table_row.specs.Tree.{tree_of};
ghost use Rattle.listing_spell.specs.Puts.{Puts};
ghost use Rattle.plan_text.specs.Words.{plan_bytes};
ghost use Rattle.plan_text.specs.Spelled.{run_text};
ghost use Rattle.printout_text.specs.Tables.{IsTable};

use listing_spell::Text;
use plan_text_path::Sides;
use tree::Profile;

// A list and its tally as text in lent bytes, from the first one on.
fn put_plan(out: &mut [u8], list: &[u32], s: Sides, tally: plan_tally::Tally) -> usize
    requires { length list.now ≤ 36864 }
    ensures { Puts out.old 0 (plan_bytes s.entry.left.now s.entry.right.now list.now tally) (2 ^ 36) result out.new }
{
    let mut text = Text { out, at: 0 };
    plan_text_put::put_plan(&mut text, list, s, tally);
    text.at
}

// The plan of three tables: 382 rows hold any result of theirs, and as many entries any list.
pub fn put_run(profile: Profile, out: &mut [u8], o: &[u32], l: &[u32], r: &[u32]) -> usize
    requires { IsTable profile o.now × IsTable profile l.now × IsTable profile r.now }
    ensures { Puts out.old 0 (run_text profile (tree_of o.now) (tree_of l.now) (tree_of r.now)) 1048576 result out.new }
{
    let mut archive = [0u32; 7640];
    let mut left = [0u32; 7640];
    let mut right = [0u32; 7640];
    let mut list = [0u32; 1146];
    let none = plan_tally::Tally {
        left: 0,
        right: 0,
        clash: 0,
    };
    let ran = reconcile_plain::reconcile_plain(
        profile,
        o,
        l,
        r,
        &mut archive,
        &mut left,
        &mut right,
        &mut list,
        none,
    );
    let counts = ran.answer.unwrap();
    let end = 3 * counts.list;
    put_plan(out, &list[..end], Sides { left: l, right: r }, ran.tally)
}
