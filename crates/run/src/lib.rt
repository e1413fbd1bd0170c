// The plain run of a decoded design by rows of bits, and the table of ranks that it reads.
#![tactic(auto)]

pub mod run;
pub mod tables;
