// A line of the call check:
// `check GOLDHEX GATEHEX D LIMIT EARLIEST TRACELEN WORDSLEN SCORESLEN = NUMBER SIDE PLACE STATUS DEPTH MISMATCH QUERY LEARNED LDEPTH LQUERY EQUAL THROUGH TRACEHEX`.
// What it asks for, the answer recorded in it, and what the buffers hold after the call.
use crate::lent::{HELD_WORD, score_fault, trace_fault, word_fault};
use crate::outcome::{Buffer, Trouble, held};
use crate::pair::{Pair, both_records};
use crate::refusal::{Refusal, told_refusal};
use lender::Memory;
use lender::text::Fields;

// What a line asks for: the records, the depth, the limit, the earliest cycle or not, and how much of the buffers is lent.
#[derive(Clone, Copy)]
pub struct Asked<'a> {
    pub records: Pair<'a>,
    pub depth: u64,
    pub limit: u64,
    pub earliest: bool,
    pub trace: usize,
    pub words: usize,
    pub scores: usize,
}

// What a line asks for; its records are put into the buffers.
pub fn asked_of<'a>(
    fields: &mut Fields,
    gold: &'a mut [u8],
    gate: &'a mut [u8],
) -> Option<Asked<'a>> {
    let records = both_records(fields, gold, gate)?;
    let depth = fields.next_number()?;
    let limit = fields.next_number()?;
    let earliest = match fields.next_number()? {
        0 => false,
        1 => true,
        _ => return None,
    };
    let trace = fields.next_number()? as usize;
    let words = fields.next_number()? as usize;
    let scores = fields.next_number()? as usize;
    Some(Asked {
        records,
        depth,
        limit,
        earliest,
        trace,
        words,
        scores,
    })
}

// Status, depth, mismatch and query of a recorded answer.
#[derive(Clone, Copy)]
pub struct Verdict {
    pub status: u64,
    pub depth: u64,
    pub mismatch: u64,
    pub query: u64,
}

fn told_verdict(fields: &mut Fields) -> Option<Verdict> {
    let status = fields.next_number()?;
    let depth = fields.next_number()?;
    let mismatch = fields.next_number()?;
    let query = fields.next_number()?;
    Some(Verdict {
        status,
        depth,
        mismatch,
        query,
    })
}

// The most that a query learned, its depth and its number in a recorded answer.
#[derive(Clone, Copy)]
pub struct Learned {
    pub total: u64,
    pub depth: u64,
    pub query: u64,
}

fn told_learned(fields: &mut Fields) -> Option<Learned> {
    let total = fields.next_number()?;
    let depth = fields.next_number()?;
    let query = fields.next_number()?;
    Some(Learned {
        total,
        depth,
        query,
    })
}

// Whether outputs are proved equal through a cycle, 0 or 1, and that cycle in a recorded answer.
#[derive(Clone, Copy)]
pub struct Proved {
    pub equal: u64,
    pub through: u64,
}

fn told_proved(fields: &mut Fields) -> Option<Proved> {
    let equal = fields.next_number()?;
    let through = fields.next_number()?;
    Some(Proved { equal, through })
}

// A recorded answer: its numbers, and the bytes of the trace that are written.
#[derive(Clone, Copy)]
pub struct Recorded<'a> {
    pub refusal: Refusal,
    pub verdict: Verdict,
    pub learned: Learned,
    pub proved: Proved,
    pub written: &'a [u8],
}

// The recorded answer; the trace's bytes are put into `claim`.
pub fn recorded_answer<'a>(fields: &mut Fields, claim: &'a mut [u8]) -> Option<Recorded<'a>> {
    let refusal = told_refusal(fields)?;
    let verdict = told_verdict(fields)?;
    let learned = told_learned(fields)?;
    let proved = told_proved(fields)?;
    fields.space()?;
    let written = fields.hex(claim);
    Some(Recorded {
        refusal,
        verdict,
        learned,
        proved,
        written,
    })
}

// What a line asks for and has as its answer, after which the line ends.
#[derive(Clone, Copy)]
pub struct CheckLine<'a> {
    pub asked: Asked<'a>,
    pub recorded: Recorded<'a>,
}

// The parts of a line after its first word; its records and its trace are put into the buffers.
pub fn check_line<'a>(
    line: &[u8],
    gold: &'a mut [u8],
    gate: &'a mut [u8],
    claim: &'a mut [u8],
) -> Option<CheckLine<'a>> {
    let mut fields = Fields::new(line);
    let asked = asked_of(&mut fields, gold, gate)?;
    let recorded = recorded_answer(&mut fields, claim)?;
    fields.end()?;
    Some(CheckLine { asked, recorded })
}

// What the buffers hold after the call, compared; where the check was accepted, words and scores have to be zero as far as they were lent.
pub fn buffers(line: &CheckLine, memory: &Memory) -> Result<(), Trouble> {
    let asked = line.asked;
    let accepted = line.recorded.refusal.number == 0;
    let written = line.recorded.written;
    held(Buffer::Trace, trace_fault(memory.trace, written))?;
    let inside = if accepted { 0 } else { HELD_WORD };
    held(Buffer::Word, word_fault(memory.words, asked.words, inside))?;
    held(
        Buffer::Score,
        score_fault(memory.scores, asked.scores, accepted),
    )
}
