// Runs a file of recorded calls, compares every answer with the recorded one, and says how many lines differ.
#![tactic(auto)]

mod cases;
mod checks;
mod lines;

use lines::{end_line, feed};
use recorded::held::Held;
use recorded::tally::{Tally, line};
use std::env::{Env, FillError};
use std::fs::File;
use std::io;
use std::io::Read;

// The whole file. Nothing says that a file ends, so the turns are counted to a number that no run uses up.
fn all_lines(
    rt: &impl Print,
    file: &mut impl Read,
    line: &mut Held,
    tally: &mut Tally,
) -> io::Result<()> {
    let mut buf = [0; 65536];
    for _ in 0..u64::MAX {
        let n = file.read(&mut buf)?;
        if n == 0 {
            return Ok(());
        }
        feed(rt, &buf[..n], line, tally)?;
    }
    Ok(())
}

// The system's numbers of three errors: no such argument, an argument longer than a path can be, and one that is no text.
const INVALID: i32 = 22;

const TOO_LONG: i32 = 36;

const NO_TEXT: i32 = 84;

// What failed, and the system's words for why, as a line of the standard error.
fn fail(rt: &(impl Eprint + AllocGlobal), what: &str, why: io::Error) -> io::Result<()> {
    let text = why.to_string(rt.alloc())?;
    let words = text.as_str();
    let reason = words
        .split_once(" (os error ")
        .map_or(words, |(before, _)| before);
    eprintln!(rt; "{what}: {reason}")
}

// The first argument, put into the buffer.
fn argument<'a>(rt: &impl Env, buf: &'a mut [u8]) -> io::Result<&'a str> {
    let n = match rt.arg(1, buf) {
        Ok(n) => n,
        Err(FillError::NotPresent) => return Err(io::Error::from_raw_os_error(INVALID)),
        Err(FillError::TooLong) => return Err(io::Error::from_raw_os_error(TOO_LONG)),
    };
    match std::str::from_utf8(&buf[..n]) {
        Ok(path) => Ok(path),
        Err(_) => Err(io::Error::from_raw_os_error(NO_TEXT)),
    }
}

fn main(rt: HostRuntime) -> io::Result<()> {
    let mut buf = [0; 4096];
    let path = match argument(&rt, &mut buf) {
        Ok(path) => path,
        Err(why) => return fail(&rt, "path", why),
    };
    let mut file = match File::open(&rt, path) {
        Ok(file) => file,
        Err(why) => return fail(&rt, path, why),
    };
    let mut room = line();
    let mut line = Held::new(&mut room);
    let mut tally = Tally::new();
    all_lines(&rt, &mut file, &mut line, &mut tally)?;
    // A last line that the file does not end is run too.
    end_line(&rt, line.bytes(), &mut tally)?;
    println!(rt; "{tally}")
}
