// One step of a replay: both sides, one cycle, from any stored bits.
ghost use Rattle.std.specs.Prelude.{◌≡◌, List, ℕ, ◌≤◌, take};
ghost use Rattle.model.specs.Names.{Place};
ghost use Rattle.model.specs.Replay.{bits_differ, differ_as_marked};
ghost use Rattle.struo_ir.specs.Designs.{Sized};
ghost use Rattle.struo_ir.specs.Orders.{Formed, places};
ghost use Rattle.steps.specs.StepSides.{SizedSide, Prepared, Cycled, outcome_of, Paired, Advanced, StepTaken};

use drivers::drivers;
use run::run::{Rows, claim_bit, exchange, next_stored, node_values, output_row};
use run::tables::input_ranks;
use struo_ir::design::{Design, Order};
use struo_ir::netlist::Netlist;

// A side of a replay, ready to run: its netlist, the rank of each Input among gold's inputs, the register of each node, and its outputs by name.
#[derive(Clone, Copy)]
pub struct Side {
    pub netlist: Netlist,
    pub ranks: [u16; 1024],
    pub drivers: [u16; 1024],
    pub outputs: Order,
}

// A replay position: the next cycle, whether the outputs agreed before it, and per side two rows, of which the old one has the stored bits.
#[derive(Clone, Copy)]
pub struct Position {
    pub cycle: usize,
    pub agreed: bool,
    pub gold: Rows,
    pub gate: Rows,
}

// What a step gives: the position after it, and yes or no.
#[derive(Clone, Copy)]
pub struct Stepped {
    pub position: Position,
    pub yes: bool,
}

// What one cycle of a side gives: its outputs by name, and its two rows, exchanged.
#[derive(Clone, Copy)]
struct Cycle {
    outputs: [bool; 128],
    rows: Rows,
}

// Whether outputs differ, and whether they differ exactly where the claim marks them.
#[derive(Clone, Copy)]
struct Comparison {
    differ: bool,
    marked: bool,
}

// A design made ready to run: ranks are those of gold's inputs.
pub fn side_of(bytes: &[u8], design: &Design, gold: &[u8], inputs: &Order) -> Side
    requires { (Sized design.now.netlist) × (Formed design.now.outputs) × (Formed inputs.now) }
    ensures { (result.netlist ≡ design.now.netlist) × (result.outputs ≡ design.now.outputs) × (Prepared bytes.now (places gold.now inputs.now) result) }
{
    let ranks = input_ranks(bytes, design.netlist, gold, *inputs);
    let table = drivers(design.netlist);
    Side {
        netlist: design.netlist,
        ranks,
        drivers: table,
        outputs: design.outputs,
    }
}

// One cycle of a side: the old row gives node values, outputs and the new row; then the two rows are exchanged.
fn cycle_of(side: &Side, claim: &[u8], at: usize, rows: Rows) -> Cycle
    requires { (SizedSide side.now) × (at ≤ 65536) }
    ensures { (s : List ℕ) (ins : List Place) → Prepared s ins side.now → Cycled s ins side.now claim.now at rows result.outputs result.rows }
{
    let values = node_values(side.netlist, side.ranks, side.drivers, claim, at, rows.old);
    let outputs = output_row(&values, side.outputs);
    let written = next_stored(side.netlist, &values, rows);
    let rows = exchange(written);
    Cycle { outputs, rows }
}

// Two rows of bits differ somewhere.
fn bits_differ(xs: &[bool], ys: &[bool]) -> bool
    ensures { result ≡ bits_differ xs.now ys.now }
{
    for (x, y) in xs.iter().zip(ys) {
        if *x != *y {
            return true;
        }
    }
    false
}

// Two rows of bits are marked, from a place of the claim on, exactly where they differ.
fn as_marked(claim: &[u8], place: usize, xs: &[bool], ys: &[bool]) -> bool
    requires { place ≤ 65536 }
    ensures { result ≡ differ_as_marked claim.now place xs.now ys.now }
{
    for k in 0..xs.len().min(ys.len()) {
        if (xs[k] != ys[k]) != claim_bit(claim, place + k) {
            return false;
        }
    }
    true
}

// The outputs of both sides compared: the first bits of two rows, as many as each side has outputs.
fn compare(
    claim: &[u8],
    place: usize,
    gold: [bool; 128],
    gold_count: usize,
    gate: [bool; 128],
    gate_count: usize,
) -> Comparison
    requires { (place ≤ 65536) × (gold_count ≤ 128) × (gate_count ≤ 128) }
    ensures { (result.differ ≡ bits_differ (take gold_count gold) (take gate_count gate)) × (result.marked ≡ differ_as_marked claim.now place (take gold_count gold) (take gate_count gate)) }
{
    let differ = bits_differ(&gold[..gold_count], &gate[..gate_count]);
    let marked = as_marked(claim, place, &gold[..gold_count], &gate[..gate_count]);
    Comparison { differ, marked }
}

// The step's outcome from a cycle's comparison and the rows after it.
#[tactic(auto, unfolding(crate::specs::StepSides::outcome_of))]
fn outcome(p: Position, cycle: usize, c: Comparison, gold: Rows, gate: Rows) -> Stepped
    requires { p.cycle ≤ 64 }
    ensures { result ≡ outcome_of p cycle c.differ c.marked gold gate }
{
    let yes = p.cycle == cycle && p.agreed && c.differ && c.marked;
    let position = Position {
        cycle: p.cycle + 1,
        agreed: p.agreed && !c.differ,
        gold,
        gate,
    };
    Stepped { position, yes }
}

// One cycle of both sides. Per side the new row is written from the old one, and the two are exchanged.
pub fn advance(
    gold: &Side,
    gate: &Side,
    inputs: usize,
    cycle: usize,
    claim: &[u8],
    p: Position,
) -> Stepped
    requires { (SizedSide gold.now) × (SizedSide gate.now) × (inputs ≤ 128) × (cycle ≤ 64) × (p.cycle ≤ 64) }
    ensures { (s t : List ℕ) → Paired s t inputs gold.now gate.now → Advanced s t gold.now gate.now cycle claim.now p result }
{
    let at = p.cycle * inputs;
    let place = (cycle + 1) * inputs;
    let gold_cycle = cycle_of(gold, claim, at, p.gold);
    let gate_cycle = cycle_of(gate, claim, at, p.gate);
    let c = compare(
        claim,
        place,
        gold_cycle.outputs,
        gold.outputs.count,
        gate_cycle.outputs,
        gate.outputs.count,
    );
    outcome(p, cycle, c, gold_cycle.rows, gate_cycle.rows)
}

// One step of a replay from a position: past the claimed cycle nothing changes and the answer is no.
pub fn step(
    gold: &Side,
    gate: &Side,
    inputs: usize,
    cycle: usize,
    claim: &[u8],
    p: Position,
) -> Stepped
    requires { (SizedSide gold.now) × (SizedSide gate.now) × (inputs ≤ 128) × (cycle ≤ 64) }
    ensures { (s t : List ℕ) → Paired s t inputs gold.now gate.now → StepTaken s t gold.now gate.now cycle claim.now p result }
{
    if p.cycle > cycle {
        return Stepped {
            position: p,
            yes: false,
        };
    }
    advance(gold, gate, inputs, cycle, claim, p)
}
