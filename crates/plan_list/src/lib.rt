// The list of moves and clashes, counted and written by one loop over the plan.
#![tactic(auto)]

ghost use Rattle.std.specs.Prelude.{◌≡◌, ◌+◌, ◌-◌, ◌*◌, ◌≤◌, length};
ghost use Rattle.plan.specs.Writes.{Writes, Fills};
ghost use Rattle.plan_results.specs.Decisions.{decided, pieces};
ghost use Rattle.plan_results.specs.Pieces.{piece_list};

use plan_cursor::Decision;

// How many words the list has for a decision.
fn line_len(d: Decision) -> usize
    ensures { result ≡ length (piece_list d) }
{
    match d {
        Decision::Agreed(_) => 0,
        Decision::LeftGets(_) => 3,
        Decision::RightGets(_) => 3,
        Decision::Clash(_) => 3,
    }
}

// The list's entry for a decision, into out at place at; the next place.
fn write_line(d: Decision, out: &mut [u32], at: usize) -> usize
    requires { at + length (piece_list d) ≤ length out.old }
    ensures { Writes out.old at (piece_list d) out.new result }
{
    match d {
        Decision::Agreed(_) => at,
        Decision::LeftGets(h) => table_row::copy_words(&[1, h.l, h.r], out, at),
        Decision::RightGets(h) => table_row::copy_words(&[2, h.l, h.r], out, at),
        Decision::Clash(h) => table_row::copy_words(&[3, h.l, h.r], out, at),
    }
}

// How many words the list has.
pub fn count_list(plan: &[u32]) -> usize
    requires { length plan.now ≤ 49152 }
    ensures { result ≡ length (pieces piece_list (decided plan.now)) }
{
    let mut sum = 0;
    for k in 0..plan.len() / 4 {
        let d = plan_decode::decode(plan, k);
        sum += line_len(d);
    }
    sum
}

// The list at the start of out; how many words it has.
pub fn write_list(plan: &[u32], out: &mut [u32]) -> usize
    requires { length (pieces piece_list (decided plan.now)) ≤ length out.old }
    ensures { Fills out.old (pieces piece_list (decided plan.now)) out.new result }
{
    let mut at = 0;
    for k in 0..plan.len() / 4 {
        let d = plan_decode::decode(plan, k);
        at = write_line(d, out, at);
    }
    at
}
