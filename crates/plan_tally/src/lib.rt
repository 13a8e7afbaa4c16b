// The tally: how many entries of each kind a list has.
#![tactic(auto)]

ghost use Rattle.std.specs.Prelude.{◌≡◌, ◌/◌, ◌≤◌, length};
ghost use Rattle.plan_tally.specs.Count.{counted, counted_all};

// The entries of kinds 1, 2 and 3.
#[derive(Clone, Copy)]
pub struct Tally {
    pub left: u32,
    pub right: u32,
    pub clash: u32,
}

// How many entries of a list are of a kind, which is a word of the list, as C has it.
fn count_kind(list: &[u32], kind: u32) -> u32
    requires { length list.now ≤ 36864 }
    ensures { result ≡ counted kind (length list.now / 3) list.now }
{
    let mut sum: u32 = 0;
    for i in 0..list.len() / 3 {
        if list[3 * i] == kind {
            sum += 1;
        }
    }
    sum
}

// The tally of a list.
pub fn counts(list: &[u32]) -> Tally
    requires { length list.now ≤ 36864 }
    ensures { result ≡ counted_all (length list.now / 3) list.now }
{
    let left = count_kind(list, 1);
    let right = count_kind(list, 2);
    let clash = count_kind(list, 3);
    Tally { left, right, clash }
}
