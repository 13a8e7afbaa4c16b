// A move where letter case is ignored: carried out by tables of keys, each in a frame of its own.
#![tactic(auto)]

ghost use Rattle.std.specs.Prelude.{◌≡◌, ◌≤◌, length};
ghost use Rattle.tree.specs.declared.Profile.TheVariants.{Folded};
ghost use Rattle.table_rules.specs.Keyed.{Passes};
ghost use Rattle.table_moved.specs.Pieces.{ByKeys, CarriedOut};

use table_rules::Answer;
use tree::Profile;

// A move by the target's keys and a path of keys, with the source's keys made in so many words.
#[inline(never)]
fn by_source<const ROOM: usize>(
    target: &[u32],
    keys: &[u32],
    source: &[u32],
    names: [[u32; 8]; 16],
    depth: usize,
    res: &mut [u32],
) -> Answer
    requires keyed { ByKeys target.now keys.now source.now names depth }
    requires room { length source.now ≤ ROOM }
    requires most { ROOM ≤ 81920 }
    ensures { CarriedOut Folded target.now source.now names depth res.old res.new result }
{
    let mut made = [0u32; ROOM];
    table_keys::key_table(source, &mut made);
    let span = table_spans::span_at(&made[..source.len()], &names[..depth]);
    table_pieces::carry_in(
        Profile::Folded,
        target,
        keys,
        source,
        span,
        names,
        depth,
        res,
    )
}

// A move by the target's keys, once they are made, and a path of keys. The source's are made in one of three sizes, by the rows
// of both tables.
pub fn carry_keyed(
    target: &[u32],
    keys: &[u32],
    source: &[u32],
    names: [[u32; 8]; 16],
    depth: usize,
    res: &mut [u32],
) -> Answer
    requires { ByKeys target.now keys.now source.now names depth }
    ensures { CarriedOut Folded target.now source.now names depth res.old res.new result }
{
    let n = target.len() / 20 + source.len() / 20;
    if n <= 64 {
        return by_source::<1280>(target, keys, source, names, depth, res);
    }
    if n <= 512 {
        return by_source::<10240>(target, keys, source, names, depth, res);
    }
    by_source::<81920>(target, keys, source, names, depth, res)
}

// A move with letter case ignored, with the target's keys made in so many words.
#[inline(never)]
fn by_keys<const ROOM: usize>(
    target: &[u32],
    source: &[u32],
    names: [[u32; 8]; 16],
    depth: usize,
    res: &mut [u32],
) -> Answer
    requires passes { Passes Folded target.now × Passes Folded source.now × (1 ≤ depth) × (depth ≤ 16) }
    requires room { length target.now ≤ ROOM }
    requires most { ROOM ≤ 81920 }
    ensures { CarriedOut Folded target.now source.now names depth res.old res.new result }
{
    let mut made = [0u32; ROOM];
    table_keys::key_table(target, &mut made);
    let keys = &made[..target.len()];
    carry_keyed(
        target,
        keys,
        source,
        table_path::key_names(names),
        depth,
        res,
    )
}

// A move with letter case ignored. The target's keys are made in one of three sizes too: zeroing the largest would be most of the
// time of small tables.
pub fn carry_folded(
    target: &[u32],
    source: &[u32],
    names: [[u32; 8]; 16],
    depth: usize,
    res: &mut [u32],
) -> Answer
    requires { Passes Folded target.now × Passes Folded source.now × (1 ≤ depth) × (depth ≤ 16) }
    ensures { CarriedOut Folded target.now source.now names depth res.old res.new result }
{
    let n = target.len() / 20 + source.len() / 20;
    if n <= 64 {
        return by_keys::<1280>(target, source, names, depth, res);
    }
    if n <= 512 {
        return by_keys::<10240>(target, source, names, depth, res);
    }
    by_keys::<81920>(target, source, names, depth, res)
}
