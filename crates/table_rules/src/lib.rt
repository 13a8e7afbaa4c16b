// The answer of a call with one place, and what a check of a table finds.
#![tactic(auto)]

// Why a call is refused, by its number, and the side and the place that it is about. Number and side are words of each call's
// answer in C, and each contract (`Says`) speaks of them: variants would be those numbers by other names.
#[derive(Clone, Copy)]
pub struct Refusal {
    pub number: u32,
    pub side: u32,
    pub place: usize,
}

// The answer of a call that has one place. A check that hands nothing back has the place 0, as the definitions `refusal_of`,
// `twins_due` and `unless` have it.
pub type Answer = Result<usize, Refusal>;

// What breaks the rules for numbers 1 and 2: the table's length, or the lowest row that does.
#[derive(Clone, Copy)]
pub enum Fault {
    BadLength,
    BadRow(usize),
}

// What is wrong with a table: for numbers 1 and 2 and, where that is nothing, for number 16 the row of the lowest twin.
#[derive(Clone, Copy)]
pub struct Seen {
    pub rows: Option<Fault>,
    pub twins: Option<usize>,
}

// How a row follows those before it: well, with the key of the sibling before where letter case is ignored, or not at all.
#[derive(Clone, Copy)]
pub enum Fit {
    Good,
    Twin,
    Bad,
}
