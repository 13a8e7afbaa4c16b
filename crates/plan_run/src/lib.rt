// The answer of a reconciliation, and what it counts.
#![tactic(auto)]

use plan_tally::Tally;
use table_rules::Refusal;

// The rows of the new archive, left and right, and the list's entries.
#[derive(Clone, Copy)]
pub struct Counts {
    pub archive: usize,
    pub left: usize,
    pub right: usize,
    pub list: usize,
}

// What a reconciliation answers: what it made, or why it is refused.
pub type Reconciled = Result<Counts, Refusal>;

// A reconciliation's answer, and the tally after it.
#[derive(Clone, Copy)]
pub struct Ran {
    pub answer: Reconciled,
    pub tally: Tally,
}
