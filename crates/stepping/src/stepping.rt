// The stepping call on the lent position by value: begun before cycle 0, and moved on by one cycle. Refused calls change neither position nor bits.
ghost use Rattle.std.specs.Prelude.{◌≡◌, List, ℕ, ◌≤◌, length, take};
ghost use Rattle.model.specs.Replay as Model;
ghost use Rattle.model.specs.Stepping.{gate_bits, with_stored, position_from, begin_fault, step_fault, begin_pair, step_pair, stepped_to};
ghost use Rattle.model.specs.Stepping as Stepping;
ghost use Rattle.calls.specs.Causes.{fault_of};
ghost use Rattle.calls.specs.Positions.{position_of, begun_of, stepped_of};
ghost use Rattle.struo_ir.specs.Decoded.{decoded};
ghost use Rattle.struo_ir.specs.Designs.{Sized, Padded, Sided};
ghost use Rattle.struo_ir.specs.Orders.{Formed};
ghost use Rattle.pair.specs.PairReading.{said};
ghost use Rattle.steps.specs.StepSides as Sides;
ghost use Rattle.stepping.specs.LentBits.{initial_and_short_fault};

use crate::bits::{GATE_BITS, bits_fault, short_fault, store_row, stored_row};
use calls::answers::{ReadAnswer, ReplayAnswer};
use calls::position::ReplayPosition;
use calls::refusal::Refusal;
use pair::accepted::Pair;
use pair::checks::{initial_fault, interface_fault};
use pair::reading::read_pair;
use replay::replay::replay_fault;
use run::run::{Rows, initial_row};
use steps::step::{Position, Stepped, side_of};
use struo_ir::design::Design;
use struo_ir::netlist::Netlist;

// The position before cycle 0.
const START: ReplayPosition = ReplayPosition {
    cycle: 0,
    agreed: true,
};

// What a begin gives: its answer, and the position after it.
#[derive(Clone, Copy)]
pub struct Begun {
    pub answer: ReadAnswer,
    pub position: ReplayPosition,
}

// What a step gives: its answer, and the position after it.
#[derive(Clone, Copy)]
pub struct Moved {
    pub answer: ReplayAnswer,
    pub position: ReplayPosition,
}

// The stored bits of both sides, written into the lent bits.
fn store_rows(
    gold: &Netlist,
    gate: &Netlist,
    gold_row: [bool; 128],
    gate_row: [bool; 128],
    bits: &mut [u8],
)
    requires { (Sized gold.now) × (Sized gate.now) × (256 ≤ length bits.old) }
    ensures { bits.new ≡ with_stored gate_bits (take gate.now.register_count gate_row) (with_stored 0 (take gold.now.register_count gold_row) bits.old) }
{
    store_row(bits, 0, gold.register_count, gold_row);
    store_row(bits, GATE_BITS, gate.register_count, gate_row);
}

// ---- begin

// 22 and 24.
fn initial_and_short_fault(gold: &Design, gate: &Design, bits: &[u8]) -> Result<(), Refusal>
    requires { (Sized gold.now.netlist) × (Sized gate.now.netlist) × (Formed gold.now.registers) × (Formed gate.now.registers) }
    ensures { (s t : List ℕ) → Sided s gold.now → Sided t gate.now
        → fault_of result ≡ initial_and_short_fault (decoded s gold.now.netlist) (decoded t gate.now.netlist) bits.now }
{
    initial_fault(gold, gate)?;
    short_fault(bits)
}

// The first refusal of 18 to 22 and 24.
fn begin_fault(pair: &Pair, bits: &[u8]) -> Result<(), Refusal>
    ensures { fault_of result ≡ begin_fault (said pair.now.gold) (said pair.now.gate) bits.now }
{
    interface_fault(pair)?;
    initial_and_short_fault(&pair.gold.design, &pair.gate.design, bits)
}

// The initial position of two netlists: its bits are written.
fn begin_accepted(gold: &Netlist, gate: &Netlist, bits: &mut [u8]) -> Begun
    requires { (Sized gold.now) × (Sized gate.now) × (256 ≤ length bits.old) }
    ensures { (s t : List ℕ) → Padded gold.now → Padded gate.now
        → begun_of result.answer result.position bits.new ≡ Stepping.begun (decoded s gold.now) (decoded t gate.now) bits.old }
{
    let gold_row = initial_row(*gold);
    let gate_row = initial_row(*gate);
    store_rows(gold, gate, gold_row, gate_row, bits);
    let answer = ReadAnswer {
        number: 0,
        side: 0,
        place: 0,
    };
    let position = START;
    Begun { answer, position }
}

// The begin of two accepted designs: the first refusal, or the initial position.
// It is not inlined, so that what it holds is not on the stack while the records are read.
#[inline(never)]
fn begin_pair(pair: &Pair, position: ReplayPosition, bits: &mut [u8]) -> Begun
    ensures { begun_of result.answer result.position bits.new
        ≡ begin_pair (said pair.now.gold) (said pair.now.gate) (position_of position) bits.old
        (begin_fault (said pair.now.gold) (said pair.now.gate) bits.old) }
{
    match begin_fault(pair, bits) {
        Err(refusal) => {
            let answer = ReadAnswer::from(refusal);
            Begun { answer, position }
        }
        Ok(()) => begin_accepted(&pair.gold.design.netlist, &pair.gate.design.netlist, bits),
    }
}

// The initial position, from the bytes of both records: gold is read wholly, then gate, then the pair is checked.
pub fn begin(gold: &[u8], gate: &[u8], position: ReplayPosition, bits: &mut [u8]) -> Begun
    ensures { begun_of result.answer result.position bits.new ≡ Stepping.begin gold.now gate.now (position_of position) bits.old }
{
    let read = read_pair(gold, gate);
    match &read {
        Err(refusal) => {
            let answer = ReadAnswer::from(*refusal);
            Begun { answer, position }
        }
        Ok(pair) => begin_pair(pair, position, bits),
    }
}

// ---- step

// The first refusal of 18 to 22, 25 for the claim, 24 and 25 for the lent bits.
fn step_fault(pair: &Pair, cycle: u64, claim: &[u8], bits: &[u8]) -> Result<(), Refusal>
    ensures { fault_of result ≡ step_fault (said pair.now.gold) (said pair.now.gate) cycle claim.now bits.now }
{
    replay_fault(pair, cycle, claim)?;
    bits_fault(
        bits,
        pair.gold.design.netlist.register_count,
        pair.gate.design.netlist.register_count,
    )
}

// The replay position that is lent: per side the stored bits stand in both rows at first.
fn position_from(gold: &Netlist, gate: &Netlist, position: ReplayPosition, bits: &[u8]) -> Position
    requires { (Sized gold.now) × (Sized gate.now) × (256 ≤ length bits.now) }
    ensures { (s t : List ℕ) → Padded gold.now → Padded gate.now
        → Sides.position gold.now.register_count gate.now.register_count result ≡ position_from (decoded s gold.now) (decoded t gate.now) (position_of position) bits.now }
{
    let gold_row = stored_row(bits, 0, gold.register_count);
    let gate_row = stored_row(bits, GATE_BITS, gate.register_count);
    Position {
        cycle: position.cycle as usize,
        agreed: position.agreed,
        gold: Rows {
            old: gold_row,
            new: gold_row,
        },
        gate: Rows {
            old: gate_row,
            new: gate_row,
        },
    }
}

// One step of two accepted designs from a replay position.
fn step_from(pair: &Pair, cycle: usize, claim: &[u8], p: Position) -> Stepped
    requires { cycle ≤ 64 }
    ensures { Sides.stepped pair.now.gold.design.netlist.register_count pair.now.gate.design.netlist.register_count result
        ≡ Model.step (said pair.now.gold) (said pair.now.gate) cycle claim.now
        (Sides.position pair.now.gold.design.netlist.register_count pair.now.gate.design.netlist.register_count p) }
{
    let (gold, gate) = (&pair.gold, &pair.gate);
    let inputs = &gold.design.inputs;
    let gold_side = side_of(gold.bytes, &gold.design, gold.bytes, inputs);
    let gate_side = side_of(gate.bytes, &gate.design, gold.bytes, inputs);
    steps::step::step(&gold_side, &gate_side, inputs.count, cycle, claim, p)
}

// What a step leaves: the answer, the position after it, and its stored bits in the lent bits.
fn leave(gold: &Netlist, gate: &Netlist, stepped: Stepped, bits: &mut [u8]) -> Moved
    requires { (Sized gold.now) × (Sized gate.now) × (256 ≤ length bits.old) }
    ensures { stepped_of result.answer result.position bits.new ≡ stepped_to (Sides.stepped gold.now.register_count gate.now.register_count stepped) bits.old }
{
    let next = stepped.position;
    let gold_rows = next.gold;
    let gate_rows = next.gate;
    let gold_row = gold_rows.old;
    let gate_row = gate_rows.old;
    store_rows(gold, gate, gold_row, gate_row, bits);
    let answer = ReplayAnswer {
        number: 0,
        side: 0,
        place: 0,
        yes: stepped.yes,
    };
    let position = ReplayPosition {
        cycle: next.cycle as u64,
        agreed: next.agreed,
    };
    Moved { answer, position }
}

// The step of two accepted designs and an accepted claim from the lent position.
fn step_accepted(
    pair: &Pair,
    cycle: usize,
    claim: &[u8],
    position: ReplayPosition,
    bits: &mut [u8],
) -> Moved
    requires { (cycle ≤ 64) × (256 ≤ length bits.old) }
    ensures { stepped_of result.answer result.position bits.new
        ≡ stepped_to (Model.step (said pair.now.gold) (said pair.now.gate) cycle claim.now
        (position_from (said pair.now.gold) (said pair.now.gate) (position_of position) bits.old)) bits.old }
{
    let (gold, gate) = (&pair.gold.design.netlist, &pair.gate.design.netlist);
    let p = position_from(gold, gate, position, bits);
    let stepped = step_from(pair, cycle, claim, p);
    leave(gold, gate, stepped, bits)
}

// The step of two accepted designs: the first refusal, or one cycle.
// It is not inlined, so that what it holds is not on the stack while the records are read.
#[inline(never)]
fn step_pair(
    pair: &Pair,
    cycle: u64,
    claim: &[u8],
    position: ReplayPosition,
    bits: &mut [u8],
) -> Moved
    ensures { stepped_of result.answer result.position bits.new
        ≡ step_pair (said pair.now.gold) (said pair.now.gate) cycle claim.now (position_of position) bits.old
        (step_fault (said pair.now.gold) (said pair.now.gate) cycle claim.now bits.old) }
{
    match step_fault(pair, cycle, claim, bits) {
        Err(refusal) => {
            let answer = ReplayAnswer::from(refusal);
            Moved { answer, position }
        }
        Ok(()) => step_accepted(pair, cycle as usize, claim, position, bits),
    }
}

// One cycle from the lent position, from the bytes of both records: gold is read wholly, then gate, then the pair, the claim and the bits are checked.
pub fn step(
    gold: &[u8],
    gate: &[u8],
    cycle: u64,
    claim: &[u8],
    position: ReplayPosition,
    bits: &mut [u8],
) -> Moved
    ensures { stepped_of result.answer result.position bits.new ≡ Stepping.step gold.now gate.now cycle claim.now (position_of position) bits.old }
{
    let read = read_pair(gold, gate);
    match &read {
        Err(refusal) => Moved {
            answer: ReplayAnswer::from(*refusal),
            position,
        },
        Ok(pair) => step_pair(pair, cycle, claim, position, bits),
    }
}
