// What is wrong with a line, and how it is told.
ghost use Rattle.std.specs.Prelude.{◌≡◌, ◌↔◌, IsNone, IsOk};

use std::fmt;

// The numbers of an answer that can differ.
#[derive(Clone, Copy)]
pub enum Part {
    Number,
    Side,
    Place,
    Yes,
    Status,
    Depth,
    Mismatch,
    Query,
    Learned,
    LearnedDepth,
    LearnedQuery,
    Equal,
    Through,
}

impl fmt::Display for Part {
    fn fmt<W: fmt::Write>(&self, f: &mut fmt::Formatter<W>) -> fmt::Result {
        f.pad(match self {
            Part::Number => "number",
            Part::Side => "side",
            Part::Place => "place",
            Part::Yes => "yes",
            Part::Status => "status",
            Part::Depth => "depth",
            Part::Mismatch => "mismatch",
            Part::Query => "query",
            Part::Learned => "learned",
            Part::LearnedDepth => "ldepth",
            Part::LearnedQuery => "lquery",
            Part::Equal => "equal",
            Part::Through => "through",
        })
    }
}

// The buffers that a check leaves, by what they are made of.
#[derive(Clone, Copy)]
pub enum Buffer {
    Trace,
    Word,
    Score,
}

impl fmt::Display for Buffer {
    fn fmt<W: fmt::Write>(&self, f: &mut fmt::Formatter<W>) -> fmt::Result {
        f.pad(match self {
            Buffer::Trace => "trace",
            Buffer::Word => "word",
            Buffer::Score => "score",
        })
    }
}

// A line is not in the form; or a number is not the recorded one, or a buffer is not as it has to be, of which the first place is told.
#[derive(Clone, Copy)]
pub enum Trouble {
    Malformed,
    Number {
        part: Part,
        expected: u64,
        answered: u64,
    },
    Buffer {
        buffer: Buffer,
        place: usize,
    },
}

impl fmt::Display for Trouble {
    fn fmt<W: fmt::Write>(&self, f: &mut fmt::Formatter<W>) -> fmt::Result {
        match *self {
            Trouble::Malformed => f.write_str("malformed"),
            Trouble::Number {
                part,
                expected,
                answered,
            } => write!(f, "{part:<8} is {answered}, expected {expected}"),
            Trouble::Buffer { buffer, place } => write!(f, "{buffer:<8} differs at {place}"),
        }
    }
}

// The comparison of one number.
pub fn compared(part: Part, expected: u64, answered: u64) -> Result<(), Trouble>
    ensures { IsOk result ↔ (expected ≡ answered) }
{
    if expected == answered {
        return Ok(());
    }
    Err(Trouble::Number {
        part,
        expected,
        answered,
    })
}

// The first place of a buffer that is not as it has to be, where there is one.
pub fn held(buffer: Buffer, fault: Option<usize>) -> Result<(), Trouble>
    ensures { IsOk result ↔ IsNone fault }
{
    match fault {
        None => Ok(()),
        Some(place) => Err(Trouble::Buffer { buffer, place }),
    }
}
