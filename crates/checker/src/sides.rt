// Both sides of a pair lowered into the lent words, and the problem that they make.
ghost use Rattle.std.specs.Prelude.{◌≤◌, length};
ghost use Rattle.words.specs.Layout.{LENT, GOLD-LHS, GATE-LHS};
ghost use Rattle.struo_ir.specs.Designs.{Sized};
ghost use Rattle.struo_ir.specs.Orders.{Formed};
ghost use Rattle.transition.specs.Named.{SystemMade};
ghost use Rattle.checker.specs.Sides.{SidesMade};

use pair::accepted::Pair;
use queries::problem::Problem;
use struo_ir::design::Design;
use transition::matches::matches;
use transition::named::system;
use transition::starts::start_literals;
use transition::system::System;
use words::{GATE_LHS, GOLD_LHS};

// One side lowered at its base.
fn side(words: &mut [u32], design: &Design, base: usize) -> System
    requires { (LENT ≤ length words.old) × (GOLD-LHS ≤ base) × (base ≤ GATE-LHS) × Sized design.now.netlist
        × (Formed design.now.inputs) × (Formed design.now.outputs) × (Formed design.now.registers) }
    ensures { SystemMade design.now base words.old result words.new }
{
    system(words, *design, base)
}

// The problem of two accepted designs begun at rows of stored bits: gold's side, then gate's; the literals that the states start with; the states named alike.
pub fn sides(
    words: &mut [u32],
    pair: &Pair,
    gold_row: [bool; 128],
    gate_row: [bool; 128],
) -> Problem
    requires { LENT ≤ length words.old }
    ensures { SidesMade pair.now.gold.bytes.now pair.now.gold.design gold_row pair.now.gate.bytes.now pair.now.gate.design gate_row result words.new }
{
    let (gold, gate) = (&pair.gold, &pair.gate);
    let left = side(words, &gold.design, GOLD_LHS);
    let right = side(words, &gate.design, GATE_LHS);
    let gold_start = start_literals(gold.design, gold_row);
    let gate_start = start_literals(gate.design, gate_row);
    let gold_matches = matches(gold.bytes, gold.design, gate.bytes, gate.design);
    let gate_matches = matches(gate.bytes, gate.design, gold.bytes, gold.design);
    Problem {
        gold: left,
        gate: right,
        gold_start,
        gate_start,
        gold_matches,
        gate_matches,
    }
}
