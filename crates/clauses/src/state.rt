// The types of this crate's arguments and answers.
use assignment::state::Trail;
use literals::Literal;

// How many clauses there are, and how many literals they have together.
#[derive(Clone, Copy)]
pub struct Store {
    pub clauses: usize,
    pub literals: usize,
}

// A clause as it is read: its literals lie in the pool from `start` up to `end`; the two watched ones.
#[derive(Clone, Copy)]
pub struct Clause {
    pub start: u32,
    pub end: u32,
    pub first: Literal,
    pub second: Literal,
}

// What is encoded so far: the clauses, and whether one without a literal was asked for.
#[derive(Clone, Copy)]
pub struct Encoding {
    pub store: Store,
    pub inconsistent: bool,
}

// A search before its first step: its clauses and its assignment.
#[derive(Clone, Copy)]
pub struct Encoded {
    pub encoding: Encoding,
    pub trail: Trail,
}
