// The search of sat.rs over lent words.
#![tactic(auto)]

pub mod decide;
pub mod learn;
pub mod round;
pub mod solve;
pub mod state;
