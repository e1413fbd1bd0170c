// The call check: its records read and its refusals, both sides lowered into the lent words, the proof, and the answer.
#![tactic(auto)]

pub mod accepted;
pub mod answer;
pub mod call;
pub mod sides;
