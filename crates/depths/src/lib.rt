// The queries of a depth one after another, and the loop over depths: prove_sequential_equivalence.
#![tactic(auto)]

pub mod depth;
pub mod most;
pub mod prove;
