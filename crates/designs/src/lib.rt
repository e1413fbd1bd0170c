// The designs of the specification's cases that are run, as records.
#![tactic(auto)]

pub mod record;

use crate::record::{AND, Name, Record, XOR};

// The Input e, which stands behind clk and rst in the smaller designs.
const E: Name = Name::Word(b"e");

// The Output y.
const Y: Name = Name::Word(b"y");

// y = a And b; a holds, b takes e.
pub fn conjunction() -> Record {
    let mut record = Record::new();
    let e = record.input(E);
    let a = record.state();
    let b = record.state();
    let both = record.gate(AND, a, b);
    record.output(Y, both);
    record.registers(2);
    record.register(Name::Word(b"a"), a, a);
    record.register(Name::Word(b"b"), b, e);
    record.finish()
}

// y = 0 beside a holding register.
pub fn holding() -> Record {
    let mut record = Record::new();
    record.input(E);
    let h = record.state();
    let zero = record.zero();
    record.output(Y, zero);
    record.registers(1);
    record.register(Name::Word(b"h"), h, h);
    record.finish()
}

// One side of the pair with 11 inputs and 9 outputs: 135 nodes and so many registers, which hold; their states are the nodes from 11 on.
pub fn wide_side(count: u8) -> Record {
    let mut record = Record::new();
    let mut last = 1;
    for number in 2..11 {
        last = record.input(Name::Numbered(b'i', number));
    }
    for _ in 0..count {
        last = record.state();
    }
    // Ands of the last node and the first input.
    for _ in record.nodes..126 {
        last = record.gate(AND, last, 2);
    }
    for number in 0..9 {
        record.output(Name::Numbered(b'o', number), last);
    }
    record.registers(u16::from(count));
    for number in 0..count {
        let state = 11 + u16::from(number);
        record.register(Name::Numbered(b'r', number), state, state);
    }
    record.finish()
}

// The states of a nine-bit counter, which stand behind the Input e, the lowest bit first.
const STATES: [u16; 9] = [3, 4, 5, 6, 7, 8, 9, 10, 11];

// The literal that a state is a bit of a count: the state, or its Not where the bit is 0.
fn literal(record: &mut Record, state: u16, bit: bool) -> u16 {
    if bit { state } else { record.not(state) }
}

// The conjunction that all nine states are a count's bits.
fn equals(record: &mut Record, count: u16) -> u16 {
    let mut all = literal(record, STATES[0], count & 1 == 1);
    for place in 1..9 {
        let bit = count >> place & 1 == 1;
        let one = literal(record, STATES[place], bit);
        all = record.gate(AND, all, one);
    }
    all
}

// The next bits of a nine-bit counter: a Not of the lowest, then a Xor with the carry for each further one, which the And behind it carries on.
fn next_bits(record: &mut Record) -> [u16; 9] {
    let mut carry = STATES[0];
    let mut bits = [record.not(carry); 9];
    for place in 1..9 {
        let state = STATES[place];
        bits[place] = record.gate(XOR, state, carry);
        carry = record.gate(AND, state, carry);
    }
    bits
}

// A nine-bit counter; y is 1 at one count.
pub fn counter(count: u16) -> Record {
    let mut record = Record::new();
    record.input(E);
    for _ in STATES {
        record.state();
    }
    let shown = equals(&mut record, count);
    record.output(Y, shown);
    let bits = next_bits(&mut record);
    record.registers(9);
    for ((number, state), bit) in (0..9).zip(STATES).zip(bits) {
        record.register(Name::Numbered(b'c', number), state, bit);
    }
    record.finish()
}
