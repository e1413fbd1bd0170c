// The analysis of a conflict, as sat.rs has it, over the words of a search.
#![tactic(auto)]

pub mod learned;
pub mod resolve;
pub mod sort;
pub mod state;
