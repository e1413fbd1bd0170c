// The replay of a claimed trace by steps, from a position that the caller lends with the stored bits of both sides.
#![tactic(auto)]

pub mod bits;
pub mod stepping;
