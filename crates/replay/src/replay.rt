// The replay of a claimed trace: its refusals, and yes or no.
ghost use Rattle.std.specs.Prelude.{◌≡◌, List, ℕ, ◌≤◌, take};
ghost use Rattle.model.specs.Pair.{replay_fault};
ghost use Rattle.model.specs.Run.{initial_bits};
ghost use Rattle.model.specs.Replay as Model;
ghost use Rattle.calls.specs.Answers.{replay_of};
ghost use Rattle.calls.specs.Causes.{fault_of};
ghost use Rattle.struo_ir.specs.Decoded.{decoded};
ghost use Rattle.struo_ir.specs.Designs.{Sized, Sided};
ghost use Rattle.struo_ir.specs.Orders.{Formed};
ghost use Rattle.pair.specs.PairReading.{said};
ghost use Rattle.steps.specs.StepSides.{SizedSide, Paired};
ghost use Rattle.replay.specs.ClaimChecks.{initial_and_claim_fault};

use crate::claim::claim_fault;
use calls::answers::ReplayAnswer;
use calls::refusal::Refusal;
use pair::accepted::Pair;
use pair::checks::{initial_fault, interface_fault};
use pair::reading::read_pair;
use run::run::{Rows, initial_row};
use steps::step::{Position, Side, side_of, step};
use struo_ir::design::Design;

// The yes or no of a replay from the given stored bits: a step for each cycle before the claimed one, then that one's answer. They stand in
// both rows of their side at first; what the new row holds before a cycle does not count.
pub fn replays(
    gold: &Side,
    gate: &Side,
    gold_row: [bool; 128],
    gate_row: [bool; 128],
    inputs: usize,
    cycle: usize,
    claim: &[u8],
) -> bool
    requires { (SizedSide gold.now) × (SizedSide gate.now) × (inputs ≤ 128) × (cycle ≤ 64) }
    ensures { (s t : List ℕ) → Paired s t inputs gold.now gate.now
        → result ≡ Model.replays (decoded s gold.now.netlist) (decoded t gate.now.netlist) (take gold.now.netlist.register_count gold_row) (take gate.now.netlist.register_count gate_row) cycle claim.now }
{
    let mut position = Position {
        cycle: 0,
        agreed: true,
        gold: Rows {
            old: gold_row,
            new: gold_row,
        },
        gate: Rows {
            old: gate_row,
            new: gate_row,
        },
    };
    for _ in 0..cycle {
        let stepped = step(gold, gate, inputs, cycle, claim, position);
        position = stepped.position;
    }
    let last = step(gold, gate, inputs, cycle, claim, position);
    last.yes
}

// 22 and 25.
fn initial_and_claim_fault(
    gold: &Design,
    gate: &Design,
    cycle: u64,
    claim: &[u8],
) -> Result<(), Refusal>
    requires { (Sized gold.now.netlist) × (Sized gate.now.netlist) × (Formed gold.now.inputs) × (Formed gold.now.outputs)
        × (Formed gold.now.registers) × (Formed gate.now.registers) }
    ensures { (s t : List ℕ) → Sided s gold.now → Sided t gate.now
        → fault_of result ≡ initial_and_claim_fault (decoded s gold.now.netlist) (decoded t gate.now.netlist) cycle claim.now }
{
    initial_fault(gold, gate)?;
    claim_fault(gold.inputs.count, gold.outputs.count, cycle, claim)
}

// The first refusal of 18 to 22 and 25.
pub fn replay_fault(pair: &Pair, cycle: u64, claim: &[u8]) -> Result<(), Refusal>
    ensures { fault_of result ≡ replay_fault (said pair.now.gold) (said pair.now.gate) cycle claim.now }
{
    interface_fault(pair)?;
    initial_and_claim_fault(&pair.gold.design, &pair.gate.design, cycle, claim)
}

// The yes or no of a replay of an accepted claim, from the stored bits in two rows.
pub fn replays_from(
    pair: &Pair,
    gold_row: [bool; 128],
    gate_row: [bool; 128],
    cycle: usize,
    claim: &[u8],
) -> bool
    requires { cycle ≤ 64 }
    ensures { result ≡ Model.replays (said pair.now.gold) (said pair.now.gate) (take pair.now.gold.design.netlist.register_count gold_row) (take pair.now.gate.design.netlist.register_count gate_row) cycle claim.now }
{
    let (gold, gate) = (&pair.gold, &pair.gate);
    let inputs = &gold.design.inputs;
    let gold_side = side_of(gold.bytes, &gold.design, gold.bytes, inputs);
    let gate_side = side_of(gate.bytes, &gate.design, gold.bytes, inputs);
    replays(
        &gold_side,
        &gate_side,
        gold_row,
        gate_row,
        inputs.count,
        cycle,
        claim,
    )
}

// The same from the initial bits.
fn replays_from_reset(pair: &Pair, cycle: usize, claim: &[u8]) -> bool
    requires { cycle ≤ 64 }
    ensures { result ≡ Model.replays (said pair.now.gold) (said pair.now.gate) (initial_bits (said pair.now.gold)) (initial_bits (said pair.now.gate)) cycle claim.now }
{
    let gold_row = initial_row(pair.gold.design.netlist);
    let gate_row = initial_row(pair.gate.design.netlist);
    replays_from(pair, gold_row, gate_row, cycle, claim)
}

// The replay on two accepted designs: the first refusal, or yes or no.
// It is not inlined, so that what it holds is not on the stack while the records are read.
#[inline(never)]
fn replay_pair(pair: &Pair, cycle: u64, claim: &[u8]) -> ReplayAnswer
    ensures { replay_of result ≡ Model.replay_pair (said pair.now.gold) (said pair.now.gate) cycle claim.now (replay_fault (said pair.now.gold) (said pair.now.gate) cycle claim.now) }
{
    match replay_fault(pair, cycle, claim) {
        Err(refusal) => ReplayAnswer::from(refusal),
        Ok(()) => {
            let yes = replays_from_reset(pair, cycle as usize, claim);
            ReplayAnswer {
                number: 0,
                side: 0,
                place: 0,
                yes,
            }
        }
    }
}

// The replay of a claimed trace, from the bytes of both records: gold is read wholly, then gate, then the pair is checked.
pub fn replay(gold: &[u8], gate: &[u8], cycle: u64, claim: &[u8]) -> ReplayAnswer
    ensures { replay_of result ≡ Model.replay gold.now gate.now cycle claim.now }
{
    let read = read_pair(gold, gate);
    match &read {
        Err(refusal) => ReplayAnswer::from(*refusal),
        Ok(pair) => replay_pair(pair, cycle, claim),
    }
}
