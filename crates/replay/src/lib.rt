// The replay of a claimed trace on two decoded designs, and its refusals.
#![tactic(auto)]

pub mod claim;
pub mod replay;
