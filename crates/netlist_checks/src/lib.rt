// The checks of one netlist, refusals 7 to 15 and 30, and a record read and checked.
#![tactic(auto)]

pub mod clocks;
pub mod connections;
pub mod names;
pub mod nodes;
pub mod record;
pub mod registers;
pub mod resets;
pub mod validate;
