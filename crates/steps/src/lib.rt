// One step of a replay: a cycle of both sides, and whether it is the claimed difference.
#![tactic(auto)]

pub mod step;
