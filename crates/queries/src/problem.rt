// A problem by value, and the outcome of its proof.
use calls::answers::Asked;
use transition::system::System;

// Both sides, the literals that their states start with, and for each state the match of its name among the other side's states.
#[derive(Clone, Copy)]
pub struct Problem {
    pub gold: System,
    pub gate: System,
    pub gold_start: [u32; 128],
    pub gate_start: [u32; 128],
    pub gold_matches: [u32; 128],
    pub gate_matches: [u32; 128],
}

// With the depth; for NotEquivalent the first mismatch, for GaveUp the query.
#[derive(Clone, Copy)]
pub enum Verdict {
    Equivalent(u32),
    NotEquivalent(u32, u32),
    Inconclusive(u32),
    GaveUp(u32, u32),
}

// The verdict, and of the queries asked the one that learned most, the first where they are equal.
#[derive(Clone, Copy)]
pub struct Outcome {
    pub verdict: Verdict,
    pub most: Asked,
}
