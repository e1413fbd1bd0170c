// One line of the list: its call is made and its answer compared.
use crate::checks::run_check;
use recorded::outcome::{Part, Trouble, compared};
use recorded::read_line::read_line;
use recorded::refusal::compared_refusal;
use recorded::replay_line::replay_line;

// A `read` line, after that word.
fn run_read(line: &[u8]) -> Result<(), Trouble> {
    let mut record = lender::record();
    let told = read_line(line, &mut record).ok_or(Trouble::Malformed)?;
    let answer = struo_formal::read(told.record);
    compared_refusal(told.refusal, answer.number, answer.side, answer.place)
}

// A `replay` line, after that word.
fn run_replay(line: &[u8]) -> Result<(), Trouble> {
    let mut gold = lender::record();
    let mut gate = lender::record();
    let mut claim = lender::record();
    let told = replay_line(line, &mut gold, &mut gate, &mut claim).ok_or(Trouble::Malformed)?;
    let records = told.records;
    let answer = struo_formal::replay(records.gold, records.gate, told.cycle, told.claim);
    compared_refusal(told.refusal, answer.number, answer.side, answer.place)?;
    compared(Part::Yes, u64::from(told.yes), u64::from(answer.yes))
}

// A line of the list.
pub fn run_line(line: &[u8]) -> Result<(), Trouble> {
    if let Some(rest) = line.strip_prefix(b"read ") {
        run_read(rest)
    } else if let Some(rest) = line.strip_prefix(b"replay ") {
        run_replay(rest)
    } else if let Some(rest) = line.strip_prefix(b"check ") {
        run_check(rest)
    } else {
        Err(Trouble::Malformed)
    }
}
