// What came of the lines so far, and the longest line.
ghost use Rattle.std.specs.Prelude.{◌≡◌, ◌+◌, ◌-◌, ◌^◌, IsErr, IsOk, length, min};

use crate::outcome::Trouble;
use std::{fmt, io};

// How many lines ended, how many of them make a call, and how many of those differ.
#[derive(Clone, Copy)]
pub struct Tally {
    pub ended: u64,
    pub lines: u64,
    pub differ: u64,
}

// The longest line that can be held.
pub fn line() -> [u8; 524288]
    ensures { 524288 ≡ length result }
{
    [0; 524288]
}

impl Tally {
    // No line so far.
    pub fn new() -> Self
        ensures { result ≡ record { ended = 0; lines = 0; differ = 0 } }
    {
        Tally {
            ended: 0,
            lines: 0,
            differ: 0,
        }
    }

    // One more line ended; the largest number stays, here and below.
    pub fn end_line(&mut self)
        ensures ended { self.new.ended ≡ min (self.old.ended + 1) (2 ^ 64 - 1) }
        ensures lines { self.new.lines ≡ self.old.lines }
        ensures differ { self.new.differ ≡ self.old.differ }
    {
        self.ended = self.ended.saturating_add(1);
    }

    // The line makes a call; what is wrong with it is told.
    pub fn count(&mut self, rt: &impl Print, outcome: Result<(), Trouble>) -> io::Result<()>
        ensures lines { self.new.lines ≡ min (self.old.lines + 1) (2 ^ 64 - 1) }
        ensures agrees { IsOk outcome → self.new.differ ≡ self.old.differ }
        ensures differs { IsErr outcome → self.new.differ ≡ min (self.old.differ + 1) (2 ^ 64 - 1) }
        ensures ended { self.new.ended ≡ self.old.ended }
    {
        self.lines = self.lines.saturating_add(1);
        if let Err(trouble) = outcome {
            self.differ = self.differ.saturating_add(1);
            let line = self.ended;
            println!(rt; "line {line}: {trouble}")?;
        }
        Ok(())
    }
}

impl fmt::Display for Tally {
    fn fmt<W: fmt::Write>(&self, f: &mut fmt::Formatter<W>) -> fmt::Result {
        let lines = self.lines;
        let differ = self.differ;
        write!(f, "{lines} lines, {differ} differ")
    }
}
