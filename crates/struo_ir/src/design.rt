// A design as it travels: its netlist, and its Inputs, Outputs and registers in byte order of names.
use crate::netlist::Netlist;

// An entry of an order: the number of a node or register, and the place of its name.
#[derive(Clone, Copy)]
pub struct Entry {
    pub number: u16,
    pub name: u16,
}

impl Entry {
    // An entry of zeros, as every place past an order's count holds.
    pub const NONE: Entry = Entry { number: 0, name: 0 };
}

// Inputs, Outputs or registers in byte order of names: the first `count` entries, and zeros past them.
#[derive(Clone, Copy)]
pub struct Order {
    pub count: usize,
    pub entries: [Entry; 128],
}

// A netlist with its orders by name. Names are places in the record that it was read from.
#[derive(Clone, Copy)]
pub struct Design {
    pub netlist: Netlist,
    pub inputs: Order,
    pub outputs: Order,
    pub registers: Order,
}
