// The path of a move: whether its slots are good, and its names by key.
#![tactic(auto)]

ghost use Rattle.std.specs.Prelude.{◌≡◌, map};
ghost use Rattle.tree.specs.declared.Profile.TheVariants.{Folded};
ghost use Rattle.tree.specs.Key.{key};
ghost use Rattle.table_moved.specs.Path.{slots, path_rule};
ghost use Rattle.table_moved.specs.Pieces.{slot_rule};

// Whether a name slot is as it must be, within the path's depth or past it.
fn slot_ok(name: [u32; 8], within: bool) -> bool
    ensures { result ≡ slot_rule within name }
{
    if within {
        return table_names::good_name(&name);
    }
    table_names::all_zero(&name)
}

// Whether no name slot is bad.
fn slots_ok(names: [[u32; 8]; 16], depth: usize) -> bool
    ensures { result ≡ slots depth names }
{
    for (i, &name) in names.iter().enumerate() {
        if !slot_ok(name, i < depth) {
            return false;
        }
    }
    true
}

// Whether a path has a depth of 1 to 16 and no bad slot.
pub fn path_ok(names: [[u32; 8]; 16], depth: usize) -> bool
    ensures { result ≡ path_rule names depth }
{
    match depth {
        1..=16 => slots_ok(names, depth),
        _ => false,
    }
}

// The keys of a path's names.
pub fn key_names(names: [[u32; 8]; 16]) -> [[u32; 8]; 16]
    ensures { result ≡ map (key Folded) names }
{
    names.map(
        |name: [u32; 8]| -> [u32; 8]
            ensures { result ≡ key Folded name }
        { table_keys::key_name(tree::Profile::Folded, name) },
    )
}
