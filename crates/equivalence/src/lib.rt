// The queries of equivalence.rs over transition graphs in lent words.
#![tactic(auto)]

pub mod base;
pub mod counterexample;
pub mod induction;
