// What the programs share: the memory that they lend to a check, which lies on their stack, so that they are run under a larger stack limit; and the
// fields of a text.
#![tactic(auto)]

pub mod text;

ghost use Rattle.std.specs.Prelude.{◌≡◌, length};

// What is lent to a check: the trace, the words and the scores.
#[derive(Drop)]
pub struct Memory<'a> {
    pub trace: &'a mut [u8],
    pub words: &'a mut [u32],
    pub scores: &'a mut [f64],
}

// The words: the 8,388,608 that a check needs, and 8,192 more for programs that lend more than enough.
pub fn words() -> [u32; 8396800]
    ensures { 8396800 ≡ length result }
{
    [0; 8396800]
}

// The scores: the 65,536 that a check needs, and 1,024 more.
pub fn scores() -> [f64; 66560]
    ensures { 66560 ≡ length result }
{
    [0.0; 66560]
}

// The trace: enough for 64 inputs and 64 outputs at depth 64, and more.
pub fn trace() -> [u8; 16384]
    ensures { 16384 ≡ length result }
{
    [0; 16384]
}

// The bytes of a record or a claim: more than any call takes.
pub fn record() -> [u8; 131072]
    ensures { 131072 ≡ length result }
{
    [0; 131072]
}
