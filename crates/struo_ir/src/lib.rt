// The netlist of a record, and its reader: refusals 1 to 6 of the specification; a design as it travels, with its orders by name.
#![tactic(auto)]

pub mod design;
pub mod netlist;
pub mod nodes;
pub mod reader;
pub mod registers;
