// The refusals 16, 17, 36 and 18 to 24 of a check, in the specification's order. Nothing lent is written before all of them are tested.
#![tactic(auto)]

ghost use Rattle.std.specs.Prelude.{◌≡◌, List, ℕ, ◌≤◌, ltb};
ghost use Rattle.model.specs.Pair.{check_fault};
ghost use Rattle.calls.specs.Causes.{fault_of};
ghost use Rattle.calls.specs.Options.{options_of, lent_of};
ghost use Rattle.struo_ir.specs.Decoded.{decoded};
ghost use Rattle.struo_ir.specs.Designs.{Sized, Sided};
ghost use Rattle.struo_ir.specs.Orders.{Formed};
ghost use Rattle.pair.specs.PairReading.{said};
ghost use Rattle.refusals.specs.Refusals.{frames_by, nodes_by, short_by, options_fault, size_fault, initial_and_size_fault, pair_fault};

use calls::options::{LIMIT, Lent, Options};
use calls::refusal::{Cause, Refusal};
use pair::accepted::Pair;
use pair::checks::{initial_fault, interface_fault};
use struo_ir::design::Design;
use words::{LENT, MOST_NODES};

// 16, 17 and 36. Depth and limit are tested as they came, before anything is computed from them.
fn options_fault(options: Options) -> Result<(), Refusal>
    ensures { fault_of result ≡ options_fault (options_of options) }
{
    if options.depth == 0 {
        return Err(Refusal::of_pair(Cause::ZeroDepth));
    }
    if options.depth > 64 {
        return Err(Refusal::of_pair(Cause::DepthLimit));
    }
    if options.limit > LIMIT {
        return Err(Refusal::of_pair(Cause::LearnedLimit));
    }
    Ok(())
}

// The specification's F: how many nodes a cycle makes at most.
fn nodes_per_cycle(inputs: usize, outputs: usize, nodes: usize, registers: usize) -> usize
    requires { (inputs ≤ 128) × (outputs ≤ 128) × (nodes ≤ 2048) × (registers ≤ 256) }
    ensures { (result ≡ frames_by inputs outputs nodes registers) × (result ≤ 9345) }
{
    inputs + 3 * nodes + 10 * registers + 4 * outputs + 1
}

// 23: (D + 1) × F + R is over 65,535.
fn too_large(inputs: usize, outputs: usize, nodes: usize, registers: usize, depth: usize) -> bool
    requires { (inputs ≤ 128) × (outputs ≤ 128) × (nodes ≤ 2048) × (registers ≤ 256) × (depth ≤ 64) }
    ensures { result ≡ ltb 65535 (nodes_by inputs outputs nodes registers depth) }
{
    let frame = nodes_per_cycle(inputs, outputs, nodes, registers);
    let frames = depth + 1;
    frames * frame + registers > 65535
}

// 24: a lent buffer is too short.
fn too_short(inputs: usize, outputs: usize, depth: usize, lent: Lent) -> bool
    requires { (inputs ≤ 128) × (outputs ≤ 128) × (depth ≤ 64) }
    ensures { result ≡ short_by inputs outputs depth (lent_of lent) }
{
    let rows = depth + 1;
    if lent.trace < rows * inputs + outputs {
        return true;
    }
    if lent.words < LENT {
        return true;
    }
    lent.scores < MOST_NODES
}

// 23 and 24, from the counts.
fn size_fault(
    inputs: usize,
    outputs: usize,
    nodes: usize,
    registers: usize,
    depth: usize,
    lent: Lent,
) -> Result<(), Refusal>
    requires { (inputs ≤ 128) × (outputs ≤ 128) × (nodes ≤ 2048) × (registers ≤ 256) × (depth ≤ 64) }
    ensures { fault_of result ≡ size_fault inputs outputs nodes registers depth (lent_of lent) }
{
    if too_large(inputs, outputs, nodes, registers, depth) {
        return Err(Refusal::of_pair(Cause::TooLarge));
    }
    if too_short(inputs, outputs, depth, lent) {
        return Err(Refusal::of_pair(Cause::Memory));
    }
    Ok(())
}

// 22 to 24.
fn initial_and_size_fault(
    gold: &Design,
    gate: &Design,
    depth: usize,
    lent: Lent,
) -> Result<(), Refusal>
    requires { (Sized gold.now.netlist) × (Sized gate.now.netlist) × (Formed gold.now.inputs) × (Formed gold.now.outputs)
        × (Formed gold.now.registers) × (Formed gate.now.registers) × (depth ≤ 64) }
    ensures { (s t : List ℕ) → Sided s gold.now → Sided t gate.now
        → fault_of result ≡ initial_and_size_fault (decoded s gold.now.netlist) (decoded t gate.now.netlist) depth (lent_of lent) }
{
    initial_fault(gold, gate)?;
    let nodes = gold.netlist.node_count + gate.netlist.node_count;
    let registers = gold.netlist.register_count + gate.netlist.register_count;
    size_fault(
        gold.inputs.count,
        gold.outputs.count,
        nodes,
        registers,
        depth,
        lent,
    )
}

// 18 to 24.
fn pair_fault(pair: &Pair, depth: usize, lent: Lent) -> Result<(), Refusal>
    requires { depth ≤ 64 }
    ensures { fault_of result ≡ pair_fault (said pair.now.gold) (said pair.now.gate) depth (lent_of lent) }
{
    interface_fault(pair)?;
    initial_and_size_fault(&pair.gold.design, &pair.gate.design, depth, lent)
}

// The first refusal of 16, 17, 36 and 18 to 24.
pub fn check_fault(pair: &Pair, options: Options, lent: Lent) -> Result<(), Refusal>
    ensures { fault_of result ≡ check_fault (said pair.now.gold) (said pair.now.gate) (options_of options) (lent_of lent) }
{
    options_fault(options)?;
    let depth = options.depth as usize;
    pair_fault(pair, depth, lent)
}
