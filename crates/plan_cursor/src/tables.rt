// Archive, left and right as one value.
ghost use Rattle.plan_cursor.specs.Three.{Three};

// Three tables of whole rows, 4,096 at most.
#[derive(Clone, Copy)]
pub struct Tables<'a> {
    pub o: &'a [u32],
    pub l: &'a [u32],
    pub r: &'a [u32],
    pub ghost three: { Three o.now l.now r.now },
}
