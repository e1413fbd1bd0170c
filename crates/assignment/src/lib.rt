// The part of the solver's state that the definition calls assignment and scores, in lent words and lent scores.
#![tactic(auto)]

pub mod blocks;
pub mod choice;
pub mod scores;
pub mod state;
pub mod trail;
