// Words of a table from one place to another, as a move speaks of them.
#![tactic(auto)]

// Words of a table, from one place to another.
#[derive(Clone, Copy)]
pub struct Span {
    pub from: usize,
    pub to: usize,
}
