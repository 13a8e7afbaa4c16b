// The classes of a listing's bytes, and where in a line a byte leaves the reader.
#![tactic(auto)]

// What a byte may be in a text.
#[derive(Clone, Copy)]
pub enum Class {
    Plain,
    Escape,
    Blank,
    LineEnd,
    Hash,
    Mark,
    Refused,
}

// Where in a logical line: only blanks so far, or a word has begun, each also right after a backslash; in a comment; past its end.
#[derive(Clone, Copy)]
pub enum Mode {
    Lead,
    LeadBack,
    Body,
    BodyBack,
    Comment,
    Done,
}
