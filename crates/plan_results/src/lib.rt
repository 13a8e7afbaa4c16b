// Which result is written, and where it takes its rows from.
#![tactic(auto)]

// The new trees.
#[derive(Clone, Copy)]
pub enum Tree {
    Archive,
    Left,
    Right,
}

// What a new tree takes by a decision: a row's whole subtree, or the row alone.
#[derive(Clone, Copy)]
pub enum Source {
    OldPart(u32),
    LeftPart(u32),
    RightPart(u32),
    LeftRow(u32),
    RightRow(u32),
}
