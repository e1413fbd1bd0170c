// A record in the making: nodes first, then registers, all clocked by node 0, rising, with a synchronous reset to 0 from node 1.
ghost use Rattle.std.specs.Prelude.{◌≡◌, ◌+◌, ◌-◌, ◌<◌, ◌≤◌, ◌∷◌, ◌++◌, [], length, min, take};
ghost use Rattle.std.specs.Int.{w16, to_be_bytes};
ghost use Rattle.designs.specs.Written.{Gains, written, name_bytes, stated};

// The kinds of nodes, as the record has them.
const INPUT: u8 = 0;

const CONSTANT: u8 = 1;

const REGISTER_OUTPUT: u8 = 2;

const NOT: u8 = 16;

const OUTPUT: u8 = 17;

pub const AND: u8 = 32;

pub const XOR: u8 = 34;

// A name: a word of at most 255 letters, or a letter and a number under 100.
#[derive(Clone, Copy)]
pub enum Name<'a> {
    Word(&'a [u8]),
    Numbered(u8, u8),
}

// The bytes so far, how many, and how many nodes they hold. Past 2,048 bytes nothing more is kept.
#[derive(Clone, Copy)]
pub struct Record {
    pub length: usize,
    pub nodes: u16,
    pub bytes: [u8; 2048],
}

impl Record {
    // A record of the nodes 0 and 1, the Inputs clk and rst: version, room for the length, the name g, room for the node count, the nodes.
    pub fn new() -> Record
        ensures nodes { result.nodes ≡ 2 }
        ensures bytes { written result ≡ 1 ∷ 0 ∷ 0 ∷ 0 ∷ 0 ∷ 1 ∷ 103 ∷ 0 ∷ 0 ∷ 0 ∷ 3 ∷ 99 ∷ 108 ∷ 107 ∷ 0 ∷ 3 ∷ 114 ∷ 115 ∷ 116 ∷ [] }
    {
        let mut record = Record {
            length: 0,
            nodes: 0,
            bytes: [0; 2048],
        };
        record.byte(1);
        record.two(0);
        record.two(0);
        record.name(Name::Word(b"g"));
        record.two(0);
        record.input(Name::Word(b"clk"));
        record.input(Name::Word(b"rst"));
        record
    }

    // One more byte.
    #[tactic(auto, using(crate::specs::WrittenLaws::byte_kept, crate::specs::WrittenLaws::byte_lost))]
    fn byte(&mut self, byte: u8)
        ensures bytes { Gains self.old self.new (byte ∷ []) }
        ensures nodes { self.new.nodes ≡ self.old.nodes }
    {
        if self.length < self.bytes.len() {
            self.bytes[self.length] = byte;
            self.length += 1;
        }
    }

    // Some more bytes.
    #[tactic(auto, using(crate::specs::WrittenLaws::none_kept, crate::specs::WrittenLaws::gains_more))]
    fn put(&mut self, more: &[u8])
        ensures bytes { Gains self.old self.new more.now }
        ensures nodes { self.new.nodes ≡ self.old.nodes }
    {
        for byte in more {
            self.byte(*byte);
        }
    }

    // A number of two bytes.
    fn two(&mut self, number: u16)
        ensures bytes { Gains self.old self.new (to_be_bytes w16 number) }
        ensures nodes { self.new.nodes ≡ self.old.nodes }
    {
        self.put(&number.to_be_bytes());
    }

    // A number of two bytes at a place that is written already.
    fn place(&mut self, at: usize, number: u16)
        requires { at < 2047 }
        ensures bytes { written self.new ≡ stated (written self.old) at number }
        ensures length { self.new.length ≡ self.old.length }
        ensures nodes { self.new.nodes ≡ self.old.nodes }
    {
        let [high, low] = number.to_be_bytes();
        self.bytes[at] = high;
        self.bytes[at + 1] = low;
    }

    // A name, its length before it.
    #[tactic(auto, unfolding(crate::specs::Written::name_bytes))]
    fn name(&mut self, name: Name)
        ensures bytes { Gains self.old self.new (name_bytes name.entry) }
        ensures nodes { self.new.nodes ≡ self.old.nodes }
    {
        match name {
            Name::Word(letters) => {
                self.byte((letters.len() % 256) as u8);
                self.put(letters);
            }
            Name::Numbered(letter, number) if number < 10 => {
                self.put(&[2, letter, b'0' + number % 10]);
            }
            Name::Numbered(letter, number) => {
                self.put(&[3, letter, b'0' + number / 10 % 10, b'0' + number % 10]);
            }
        }
    }

    // One node more of a kind; its number.
    fn node(&mut self, kind: u8) -> u16
        ensures number { result ≡ self.old.nodes }
        ensures nodes { self.new.nodes ≡ min (self.old.nodes + 1) 65535 }
        ensures bytes { Gains self.old self.new (kind ∷ []) }
    {
        let number = self.nodes;
        self.nodes = number.saturating_add(1);
        self.byte(kind);
        number
    }

    // An Input. Of this and each further kind that can be read, the node's number.
    pub fn input(&mut self, name: Name) -> u16
        ensures number { result ≡ self.old.nodes }
        ensures nodes { self.new.nodes ≡ min (self.old.nodes + 1) 65535 }
        ensures bytes { Gains self.old self.new (0 ∷ name_bytes name.entry) }
    {
        let number = self.node(INPUT);
        self.name(name);
        number
    }

    // The Constant 0.
    pub fn zero(&mut self) -> u16
        ensures number { result ≡ self.old.nodes }
        ensures nodes { self.new.nodes ≡ min (self.old.nodes + 1) 65535 }
        ensures bytes { Gains self.old self.new (1 ∷ 0 ∷ []) }
    {
        let number = self.node(CONSTANT);
        self.byte(0);
        number
    }

    // A RegisterOutput.
    pub fn state(&mut self) -> u16
        ensures number { result ≡ self.old.nodes }
        ensures nodes { self.new.nodes ≡ min (self.old.nodes + 1) 65535 }
        ensures bytes { Gains self.old self.new (2 ∷ []) }
    {
        self.node(REGISTER_OUTPUT)
    }

    // A Not.
    pub fn not(&mut self, x: u16) -> u16
        ensures number { result ≡ self.old.nodes }
        ensures nodes { self.new.nodes ≡ min (self.old.nodes + 1) 65535 }
        ensures bytes { Gains self.old self.new (16 ∷ to_be_bytes w16 x) }
    {
        let number = self.node(NOT);
        self.two(x);
        number
    }

    // A node of two inputs, of the kind given.
    pub fn gate(&mut self, kind: u8, x: u16, y: u16) -> u16
        ensures number { result ≡ self.old.nodes }
        ensures nodes { self.new.nodes ≡ min (self.old.nodes + 1) 65535 }
        ensures bytes { Gains self.old self.new (kind ∷ to_be_bytes w16 x ++ to_be_bytes w16 y) }
    {
        let number = self.node(kind);
        self.two(x);
        self.two(y);
        number
    }

    // An Output.
    pub fn output(&mut self, name: Name, x: u16)
        ensures nodes { self.new.nodes ≡ min (self.old.nodes + 1) 65535 }
        ensures bytes { Gains self.old self.new (17 ∷ name_bytes name.entry ++ to_be_bytes w16 x) }
    {
        self.node(OUTPUT);
        self.name(name);
        self.two(x);
    }

    // The nodes are whole: their count is put where it belongs, and so many registers follow.
    pub fn registers(&mut self, count: u16)
        ensures nodes { self.new.nodes ≡ self.old.nodes }
        ensures bytes { written self.new ≡ take 2048 (stated (written self.old) 7 self.old.nodes ++ to_be_bytes w16 count) }
    {
        self.place(7, self.nodes);
        self.two(count);
    }

    // A register: name, output, data, clock, edge, no enable, the reset.
    pub fn register(&mut self, name: Name, output: u16, data: u16)
        ensures nodes { self.new.nodes ≡ self.old.nodes }
        ensures bytes { Gains self.old self.new
            (name_bytes name.entry ++ to_be_bytes w16 output ++ to_be_bytes w16 «data» ++ 0 ∷ 0 ∷ 0 ∷ 0 ∷ 1 ∷ 0 ∷ 1 ∷ 0 ∷ 0 ∷ []) }
    {
        self.name(name);
        self.two(output);
        self.two(data);
        self.put(&[0, 0, 0, 0, 1, 0, 1, 0, 0]);
    }

    // The record is whole: its length is put where it belongs.
    pub fn finish(mut self) -> Record
        ensures nodes { result.nodes ≡ self.nodes }
        ensures bytes { written result ≡ stated (written self) 3 self.length }
    {
        let length = self.length;
        self.place(3, (length % 65536) as u16);
        self
    }

    // The bytes so far.
    pub fn bytes(&self) -> &[u8]
        ensures length { length result.now ≤ 2048 }
        ensures bytes { result.now ≡ written self.now }
    {
        self.bytes.get(..self.length).unwrap_or(&self.bytes)
    }
}
