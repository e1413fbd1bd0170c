// The transition system of a design: lowered from its netlist, with ports and states in byte order of names.
#![tactic(auto)]

pub mod gather;
pub mod matches;
pub mod named;
pub mod starts;
pub mod system;
