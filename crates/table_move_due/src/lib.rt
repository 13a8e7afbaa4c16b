// The answer that the tables and the path of a move are due.
#![tactic(auto)]

ghost use Rattle.std.specs.Prelude.{◌≡◌};
ghost use Rattle.table_moved.specs.Pieces.{tables_due, inputs_due};

use table_rules::Answer;
use tree::Profile;

// The answer that the tables are due: numbers 1 and 2 of each, then 16.
fn tables_due(profile: Profile, target: &[u32], source: &[u32]) -> Answer
    ensures { result ≡ tables_due profile target.now source.now }
{
    let t = table_check::check(profile, target);
    let s = table_check::check(profile, source);
    table_answers::refusal(t, 2)?;
    table_answers::refusal(s, 3)?;
    table_answers::twins_refusal(t, 2)?;
    table_answers::twins_refusal(s, 3)
}

// The answer that the tables and the path are due: numbers 1, 2, 16 and 5.
pub fn inputs_due(
    profile: Profile,
    target: &[u32],
    source: &[u32],
    names: [[u32; 8]; 16],
    depth: usize,
) -> Answer
    ensures { result ≡ inputs_due profile target.now source.now names depth }
{
    tables_due(profile, target, source)?;
    table_answers::unless_refused(table_path::path_ok(names, depth), 5, 0)
}
