// Each query of equivalence.rs asked of the search, from a problem by value.
#![tactic(auto)]

pub mod ask;
pub mod problem;
pub mod query;
