// Names of a record in byte order: two names compared, the orders by name of a netlist's ports and registers, and a netlist with its orders.
#![tactic(auto)]

pub mod design;
pub mod names;
pub mod order;
