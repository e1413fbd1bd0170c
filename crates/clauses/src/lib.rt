// The clauses of a search in lent words: read, added with their watches, and those of a graph and its assumptions.
#![tactic(auto)]

pub mod add;
pub mod clause;
pub mod encode;
pub mod queue;
pub mod start;
pub mod state;
