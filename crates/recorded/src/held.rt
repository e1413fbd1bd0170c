// The line that is put together from what is read, in the memory lent to it.
ghost use Rattle.std.specs.Prelude.{◌≡◌, IsNone, IsSome, Some};

// The memory, whose first bytes are the line's so far, and how many these are; none where the line is longer than the memory.
#[derive(Drop)]
pub struct Held<'a> {
    memory: &'a mut [u8],
    pub length: Option<usize>,
}

impl<'a> Held<'a> {
    // An empty line.
    pub fn new(memory: &'a mut [u8]) -> Self
        ensures { result.length ≡ Some 0 }
    {
        Held {
            memory,
            length: Some(0),
        }
    }

    // Some more bytes of the line. One that is too long stays so.
    pub fn push(&mut self, part: &[u8])
        ensures { IsNone self.old.length → IsNone self.new.length }
    {
        self.length = self.put(part);
    }

    // The length with some more bytes, which are put behind the others where there is room for them.
    fn put(&mut self, part: &[u8]) -> Option<usize>
        ensures { IsNone self.old.length → IsNone result }
    {
        let from = self.length?;
        let end = from.checked_add(part.len())?;
        self.memory.get_mut(from..end)?.copy_from_slice(part);
        Some(end)
    }

    // The line so far; none where it is too long.
    pub fn bytes(&self) -> Option<&[u8]>
        ensures { IsSome result → IsSome self.now.length }
    {
        self.memory.get(..self.length?)
    }

    // The next line begins.
    pub fn clear(&mut self)
        ensures { self.new.length ≡ Some 0 }
    {
        self.length = Some(0);
    }
}
