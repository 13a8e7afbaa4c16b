// One move carried out: a table, with its subtree at a path become another table's. Names are matched by a key.
#![tactic(auto)]

ghost use Rattle.std.specs.Prelude.{◌≤◌};
ghost use Rattle.tree.specs.declared.Profile.TheVariants.{Exact, Folded};
ghost use Rattle.table_rules.specs.Keyed.{Passes};
ghost use Rattle.table_moved.specs.Move.{MoveContract};
ghost use Rattle.table_moved.specs.Pieces.{CarriedOut};

use table_rules::Answer;
use tree::Profile;

// A move whose tables and path are as they must be.
fn carry_out(
    profile: Profile,
    target: &[u32],
    source: &[u32],
    names: [[u32; 8]; 16],
    depth: usize,
    res: &mut [u32],
) -> Answer
    requires { Passes profile target.now × Passes profile source.now × (1 ≤ depth) × (depth ≤ 16) }
    ensures { CarriedOut profile target.now source.now names depth res.old res.new result }
{
    match profile {
        Profile::Exact => {
            let span = table_spans::span_at(source, &names[..depth]);
            table_pieces::carry_in(profile, target, target, source, span, names, depth, res)
        }
        Profile::Folded => table_move_keyed::carry_folded(target, source, names, depth, res),
    }
}

// The target's subtree at a path becomes the source's, absence included; the result is the whole target afterwards. A path is
// sixteen slots and a depth, as the C interface has it, and so it is in the contracts of what tries a move and carries it out.
pub fn make_move(
    profile: Profile,
    target: &[u32],
    source: &[u32],
    names: [[u32; 8]; 16],
    depth: u32,
    res: &mut [u32],
) -> Answer
    ensures { MoveContract profile target.now source.now names depth res.old res.new result }
{
    let n = table_row::wide(depth);
    table_move_due::inputs_due(profile, target, source, names, n)?;
    carry_out(profile, target, source, names, n, res)
}
