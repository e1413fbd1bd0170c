// A design decoded from its record, in arrays by value. Names are places in the record.

// A node: its kind byte; the place of its name's length byte (Input, Output) or its value (Constant); its input numbers. What a kind lacks is 0.
#[derive(Clone, Copy)]
pub struct Node {
    pub kind: u8,
    pub detail: u16,
    pub first: u16,
    pub second: u16,
    pub third: u16,
}

impl Node {
    // A node of zeros, as every place past the node count holds.
    pub const NONE: Node = Node {
        kind: 0,
        detail: 0,
        first: 0,
        second: 0,
        third: 0,
    };
}

// A register: the place of its name's length byte, its node numbers, and its codes as the record has them. What it lacks is 0.
#[derive(Clone, Copy)]
pub struct RegisterCell {
    pub name: u16,
    pub output: u16,
    pub data: u16,
    pub clock: u16,
    pub edge: u8,
    pub enable: u8,
    pub enable_signal: u16,
    pub reset: u8,
    pub reset_signal: u16,
    pub reset_kind: u8,
    pub reset_value: u8,
}

impl RegisterCell {
    // A register of zeros, as every place past the register count holds.
    pub const NONE: RegisterCell = RegisterCell {
        name: 0,
        output: 0,
        data: 0,
        clock: 0,
        edge: 0,
        enable: 0,
        enable_signal: 0,
        reset: 0,
        reset_signal: 0,
        reset_kind: 0,
        reset_value: 0,
    };
}

// A design: its nodes and registers by number, with zeros past the counts.
#[derive(Clone, Copy)]
pub struct Netlist {
    pub node_count: usize,
    pub register_count: usize,
    pub nodes: [Node; 1024],
    pub registers: [RegisterCell; 128],
}
