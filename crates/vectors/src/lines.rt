// The lines of the file: each is put together from what is read, run, and counted.
use crate::cases::run_line;
use recorded::held::Held;
use recorded::outcome::Trouble;
use recorded::tally::Tally;
use std::io;

// The end of a line, of which there is none where it is too long to be held: comments and empty lines make no call; every other line makes one or differs.
pub fn end_line(rt: &impl Print, line: Option<&[u8]>, tally: &mut Tally) -> io::Result<()> {
    tally.end_line();
    match line {
        None => tally.count(rt, Err(Trouble::Malformed)),
        Some([] | [b'#', ..]) => Ok(()),
        Some(line) => tally.count(rt, run_line(line)),
    }
}

// A part of the file.
pub fn feed(rt: &impl Print, part: &[u8], line: &mut Held, tally: &mut Tally) -> io::Result<()> {
    for piece in part.split_inclusive(|&byte| byte == b'\n') {
        match piece.strip_suffix(b"\n") {
            Some(end) => {
                line.push(end);
                end_line(rt, line.bytes(), tally)?;
                line.clear();
            }
            None => line.push(piece),
        }
    }
    Ok(())
}
