// A line of the call check made: its buffers are lent as it says, and the answer and every element of them compared.
use calls::answers::CheckAnswer;
use lender::Memory;
use recorded::check_line::{Asked, Recorded, buffers, check_line};
use recorded::lent::{HELD_BYTE, HELD_SCORE, HELD_WORD};
use recorded::outcome::{Part, Trouble, compared};
use recorded::refusal::compared_refusal;

// The refusal and the verdict of an answer compared with the recorded ones, then what it says of the search.
fn numbers(answer: CheckAnswer, told: Recorded) -> Result<(), Trouble> {
    let verdict = told.verdict;
    compared_refusal(told.refusal, answer.number, answer.side, answer.place)?;
    compared(Part::Status, verdict.status, u64::from(answer.status))?;
    compared(Part::Depth, verdict.depth, u64::from(answer.depth))?;
    compared(Part::Mismatch, verdict.mismatch, u64::from(answer.mismatch))?;
    compared(Part::Query, verdict.query, u64::from(answer.query))?;
    search_numbers(answer, told)
}

// The query that learned most, and the cycle through which outputs are proved equal.
fn search_numbers(answer: CheckAnswer, told: Recorded) -> Result<(), Trouble> {
    let most = told.learned;
    compared(Part::Learned, most.total, u64::from(answer.learned))?;
    compared(
        Part::LearnedDepth,
        most.depth,
        u64::from(answer.learned_depth),
    )?;
    compared(
        Part::LearnedQuery,
        most.query,
        u64::from(answer.learned_query),
    )?;
    compared(Part::Equal, told.proved.equal, u64::from(answer.equal))?;
    compared(
        Part::Through,
        told.proved.through,
        u64::from(answer.through),
    )
}

// Makes the call, in buffers that hold a pattern before; none where a line asks for more of them than there is.
fn ask(asked: Asked, memory: &mut Memory) -> Option<CheckAnswer> {
    memory.trace.fill(HELD_BYTE);
    memory.words.fill(HELD_WORD);
    memory.scores.fill(HELD_SCORE);
    let trace = memory.trace.get_mut(..asked.trace)?;
    let words = memory.words.get_mut(..asked.words)?;
    let scores = memory.scores.get_mut(..asked.scores)?;
    Some(struo_formal::check(
        asked.records.gold,
        asked.records.gate,
        asked.depth,
        asked.limit,
        asked.earliest,
        trace,
        words,
        scores,
    ))
}

// A `check` line, after that word.
pub fn run_check(line: &[u8]) -> Result<(), Trouble> {
    let mut gold = lender::record();
    let mut gate = lender::record();
    let mut claim = lender::record();
    let told = check_line(line, &mut gold, &mut gate, &mut claim).ok_or(Trouble::Malformed)?;
    let mut trace = lender::trace();
    let mut words = lender::words();
    let mut scores = lender::scores();
    let mut memory = Memory {
        trace: &mut trace,
        words: &mut words,
        scores: &mut scores,
    };
    let answer = ask(told.asked, &mut memory).ok_or(Trouble::Malformed)?;
    numbers(answer, told.recorded)?;
    buffers(&told, &memory)
}
