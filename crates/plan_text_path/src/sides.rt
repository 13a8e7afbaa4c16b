// Left and right as one value.
ghost use Rattle.std.specs.Prelude.{◌≤◌, length};

// The left and the right table of a list's entries, 4,096 rows at most.
#[derive(Clone, Copy)]
pub struct Sides<'a> {
    pub left: &'a [u32],
    pub right: &'a [u32],
    pub ghost short: { (length left.now ≤ 81920) × (length right.now ≤ 81920) },
}
