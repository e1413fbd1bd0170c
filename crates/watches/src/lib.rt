// The watch queues visited, as sat.rs has it: propagation, and the unit clauses enqueued.
#![tactic(auto)]

pub mod propagate;
pub mod state;
pub mod units;
pub mod visit;
