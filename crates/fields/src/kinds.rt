// The kind bytes of a record's nodes by name. The high four bits of each are the number of its inputs.

// No input, a name.
pub const INPUT: u8 = 0x00;
// No input, a value byte.
pub const CONSTANT: u8 = 0x01;
// No input: what a register shows.
pub const REGISTER_OUTPUT: u8 = 0x02;
// One input.
pub const NOT: u8 = 0x10;
// One input, and a name.
pub const OUTPUT: u8 = 0x11;
// Two inputs.
pub const AND: u8 = 0x20;

pub const OR: u8 = 0x21;

pub const XOR: u8 = 0x22;
// Three inputs: condition, then, else.
pub const MUX: u8 = 0x30;

// The kinds that a record of version 1 may have.
pub const LISTED: [u8; 9] = [
    INPUT,
    CONSTANT,
    REGISTER_OUTPUT,
    NOT,
    OUTPUT,
    AND,
    OR,
    XOR,
    MUX,
];
