// The public library: the calls on design records, each also under the name by which `struo_formal_c` exports it for C. Nothing is asked of any argument.
#![tactic(auto)]

ghost use Rattle.std.specs.Prelude.{◌≡◌};
ghost use Rattle.model.specs.Validate as Validate;
ghost use Rattle.model.specs.Replay as Replay;
ghost use Rattle.model.specs.Stepping as Stepping;
ghost use Rattle.model.specs.Check as Check;
ghost use Rattle.calls.specs.Answers.{refusal_of, replay_of, checked_of};
ghost use Rattle.calls.specs.Positions.{position_of, begun_of, stepped_of};

use calls::answers::{CheckAnswer, ReadAnswer, ReplayAnswer};
use calls::options::Options;
use calls::position::ReplayPosition;
use netlist_checks::record::read_record;

// Read a record of any content and length: accepted, or the first refusal of 1 to 15 and 30 with its place.
pub fn read(record: &[u8]) -> ReadAnswer
    ensures { refusal_of result ≡ Validate.read «record».now }
{
    match read_record(record) {
        Ok(_) => ReadAnswer {
            number: 0,
            side: 0,
            place: 0,
        },
        Err(refusal) => ReadAnswer::from(refusal),
    }
}

// The same under the name that C calls.
pub fn struo_read(record: &[u8]) -> ReadAnswer
    ensures { refusal_of result ≡ Validate.read «record».now }
{
    read(record)
}

// Replay a claimed trace of any content and length on two records of any content and length: a refusal of 1 to 15, 30, 18 to 22 or 25, or
// yes exactly when the outputs agree in every cycle before the claimed one and in that cycle differ in exactly the marked ones, at least one.
pub fn replay(gold: &[u8], gate: &[u8], cycle: u64, claim: &[u8]) -> ReplayAnswer
    ensures { replay_of result ≡ Replay.replay gold.now gate.now cycle claim.now }
{
    replay::replay::replay(gold, gate, cycle, claim)
}

// The same under the name that C calls.
pub fn struo_replay(gold: &[u8], gate: &[u8], cycle: u64, claim: &[u8]) -> ReplayAnswer
    ensures { replay_of result ≡ Replay.replay gold.now gate.now cycle claim.now }
{
    replay(gold, gate, cycle, claim)
}

// Begin a replay by steps on two records of any content and length: a refusal of 1 to 15, 30, 18 to 22 or 24, which changes nothing lent, or the position
// before cycle 0, with gold's initial bits from byte 0 on and gate's from byte 128 on, by register number. Every other byte stays.
pub fn begin(gold: &[u8], gate: &[u8], position: &mut ReplayPosition, bits: &mut [u8]) -> ReadAnswer
    ensures { begun_of result position.new bits.new ≡ Stepping.begin gold.now gate.now (position_of position.old) bits.old }
{
    let before = *position;
    let begun = stepping::stepping::begin(gold, gate, before, bits);
    *position = begun.position;
    begun.answer
}

// The same under the name that C calls.
pub fn struo_begin(
    gold: &[u8],
    gate: &[u8],
    position: &mut ReplayPosition,
    bits: &mut [u8],
) -> ReadAnswer
    ensures { begun_of result position.new bits.new ≡ Stepping.begin gold.now gate.now (position_of position.old) bits.old }
{
    begin(gold, gate, position, bits)
}

// Move a lent replay position on by one cycle of a claimed trace of any content and length: a refusal of 1 to 15, 30, 18 to 22, 24 or 25, which changes
// nothing lent, or yes or no. Past the claimed cycle nothing changes and the answer is no; before it the answer is no; at it yes exactly when the
// position says that the outputs agreed so far and in this cycle they differ in exactly the marked ones, at least one.
pub fn step(
    gold: &[u8],
    gate: &[u8],
    cycle: u64,
    claim: &[u8],
    position: &mut ReplayPosition,
    bits: &mut [u8],
) -> ReplayAnswer
    ensures { stepped_of result position.new bits.new ≡ Stepping.step gold.now gate.now cycle claim.now (position_of position.old) bits.old }
{
    let before = *position;
    let moved = stepping::stepping::step(gold, gate, cycle, claim, before, bits);
    *position = moved.position;
    moved.answer
}

// The same under the name that C calls.
pub fn struo_step(
    gold: &[u8],
    gate: &[u8],
    cycle: u64,
    claim: &[u8],
    position: &mut ReplayPosition,
    bits: &mut [u8],
) -> ReplayAnswer
    ensures { stepped_of result position.new bits.new ≡ Stepping.step gold.now gate.now cycle claim.now (position_of position.old) bits.old }
{
    step(gold, gate, cycle, claim, position, bits)
}

// Check two records of any content and length to a maximum depth, under a limit of learned literals in each query, with cycle 0 alone put first where
// the earliest mismatch is asked for, in lent memory of any content and length: a refusal of 1 to 24, 30 or 36, which leaves everything lent as it was, or a
// verdict. The trace is written for NotEquivalent only; words and scores are all zero after an accepted check.
pub fn check(
    gold: &[u8],
    gate: &[u8],
    depth: u64,
    limit: u64,
    earliest: bool,
    trace: &mut [u8],
    words: &mut [u32],
    scores: &mut [f64],
) -> CheckAnswer
    ensures { checked_of result trace.new words.new scores.new
        ≡ Check.check gold.now gate.now (record { depth = depth; limit = limit; earliest = earliest }) trace.old words.old scores.old }
{
    let options = Options {
        depth,
        limit,
        earliest,
    };
    checker::call::check(gold, gate, options, trace, words, scores)
}

// The same under the name that C calls.
pub fn struo_check(
    gold: &[u8],
    gate: &[u8],
    depth: u64,
    limit: u64,
    earliest: bool,
    trace: &mut [u8],
    words: &mut [u32],
    scores: &mut [f64],
) -> CheckAnswer
    ensures { checked_of result trace.new words.new scores.new
        ≡ Check.check gold.now gate.now (record { depth = depth; limit = limit; earliest = earliest }) trace.old words.old scores.old }
{
    check(gold, gate, depth, limit, earliest, trace, words, scores)
}
