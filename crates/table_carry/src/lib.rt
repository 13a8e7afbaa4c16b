// The rows that a list entry carries, as a part of the left or the right table.
#![tactic(auto)]

ghost use Rattle.std.specs.Prelude.{◌≡◌, ◌&&◌};
ghost use Rattle.table_carry.specs.Carried.{passes as passes_rules, carried_rows};

use tree::Profile;

// Whether a table keeps the rules.
fn passes(profile: Profile, t: &[u32]) -> bool
    ensures { result ≡ passes_rules profile t.now }
{
    table_answers::check_table(profile, t).is_ok()
}

// Whether both tables keep the rules.
fn both_pass(profile: Profile, left: &[u32], right: &[u32]) -> bool
    ensures { result ≡ (passes_rules profile left.now && passes_rules profile right.now) }
{
    passes(profile, left) && passes(profile, right)
}

// The rows that a list entry of a kind carries: the right's where left gets, the left's where right gets, else none. The kind is a
// word of the list, which C hands back.
pub fn carried<'a>(
    profile: Profile,
    left: &'a [u32],
    right: &'a [u32],
    kind: u32,
    left_row: u32,
    right_row: u32,
) -> &'a [u32]
    ensures { result.now ≡ carried_rows profile left.now right.now kind left_row right_row }
{
    if both_pass(profile, left, right) {
        if kind == 1 {
            return table_find::part(right, right_row);
        }
        if kind == 2 {
            return table_find::part(left, left_row);
        }
    }
    &left[0..0]
}
