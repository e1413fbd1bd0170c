// A table of marks by node number.
ghost use Rattle.std.specs.Prelude.{◌≡◌, true, set};

// Marks a number; one that the table does not have changes nothing.
pub fn mark(table: &mut [bool], number: u16)
    ensures { table.new ≡ set table.old number true }
{
    let k = number as usize;
    if k < table.len() {
        table[k] = true;
    }
}
