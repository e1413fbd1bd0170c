// Query 1: base_counterexample of equivalence.rs up to the search, with the comparison of each cycle in FRAMES.
ghost use Rattle.std.specs.Prelude.{◌+◌, ◌*◌, ◌≤◌, ◌<◌, length};
ghost use Rattle.words.specs.Layout.{LENT, SMALL};
ghost use Rattle.unrolling.specs.Cycling.{Startable};
ghost use Rattle.equivalence.specs.Rows.{KeptRow, KeptComparison};
ghost use Rattle.equivalence.specs.Counterexample.{compared_cost, ComparedNext, ComparedLeft, Comparable, Compares};

use crate::base::Base;
use literals::Literal;
use transition::system::System;
use unrolling::cycle::{Frames, compared_cycle};
use words::{FRAMES, GATE_OUTPUTS, GOLD_OUTPUTS, MISMATCH, ROW, SMALL, stash};

// The first `n` literals put into FRAMES from a place on.
fn keep_row(words: &mut [u32], place: usize, literals: &[u32; 128], n: usize)
    requires { (LENT ≤ length words.old) × (n ≤ 128) × (place + n ≤ SMALL) }
    ensures { KeptRow place n literals.now words.old words.new }
{
    for (i, &literal) in literals[..n].iter().enumerate() {
        stash(words, FRAMES, SMALL, place + i, literal);
    }
}

// The comparison of a cycle put into its row: inputs, gold's outputs, gate's outputs, and the mismatch.
fn keep_comparison(
    words: &mut [u32],
    cycle: usize,
    frames: &Frames,
    mismatch: Literal,
    input_count: usize,
    output_count: usize,
)
    requires { (LENT ≤ length words.old) × (cycle ≤ 64) × (input_count ≤ 128) × (output_count ≤ 128) }
    ensures { KeptComparison input_count output_count cycle frames.now.inputs frames.now.gold.outputs frames.now.gate.outputs mismatch.0 words.old words.new }
{
    let row = ROW * cycle;
    keep_row(words, row, &frames.inputs, input_count);
    keep_row(
        words,
        row + GOLD_OUTPUTS,
        &frames.gold.outputs,
        output_count,
    );
    keep_row(
        words,
        row + GATE_OUTPUTS,
        &frames.gate.outputs,
        output_count,
    );
    stash(words, FRAMES, SMALL, row + MISMATCH, mismatch.0);
}

// One cycle of query 1: the outputs compared, their mismatch joined to those before, and the comparison kept.
fn counterexample_cycle(
    gold: &System,
    gate: &System,
    words: &mut [u32],
    base: Base,
    cycle: usize,
) -> Base
    requires { Startable (compared_cost gold.now gate.now words.old) gold.now gate.now base.aig.count words.old base.gold_state base.gate_state × (base.any_mismatch.0 < base.aig.count * 2) × (cycle ≤ 64) }
    ensures { ComparedNext gold.now gate.now cycle base.aig.count words.old base.gold_state base.gate_state base.any_mismatch.0 result.aig.count words.new result.gold_state result.gate_state result.any_mismatch.0 }
{
    let compared = compared_cycle(
        gold,
        gate,
        base.aig,
        words,
        &base.gold_state,
        &base.gate_state,
    );
    let aig = compared.aig;
    let made = aig.or(words, base.any_mismatch, compared.mismatch);
    keep_comparison(
        words,
        cycle,
        &compared.frames,
        compared.mismatch,
        gold.input_count,
        gold.output_count,
    );
    let gold_state = compared.frames.gold.next;
    let gate_state = compared.frames.gate.next;
    Base {
        aig: made.aig,
        gold_state,
        gate_state,
        any_mismatch: made.literal,
    }
}

// `n` cycles of query 1.
pub fn counterexample_cycles(
    gold: &System,
    gate: &System,
    words: &mut [u32],
    start: Base,
    n: usize,
) -> Base
    requires { Startable (n * compared_cost gold.now gate.now words.old) gold.now gate.now start.aig.count words.old start.gold_state start.gate_state × (start.any_mismatch.0 < start.aig.count * 2) × (n ≤ 65) }
    ensures { ComparedLeft gold.now gate.now n start.aig.count words.old start.gold_state start.gate_state start.any_mismatch.0 n 0 result.aig.count words.new result.gold_state result.gate_state result.any_mismatch.0 }
{
    let mut base = start;
    for i in 0..n {
        base = counterexample_cycle(gold, gate, words, base, i);
    }
    base
}

// The graph of query 1 in cycles 0 to `depth` from the start literals, its assumption, and the comparisons in FRAMES.
pub fn base_counterexample(
    gold: &System,
    gate: &System,
    words: &mut [u32],
    gold_start: &[u32; 128],
    gate_start: &[u32; 128],
    depth: usize,
) -> Base
    requires { Comparable gold.now gate.now gold_start.now gate_start.now depth words.old }
    ensures { Compares gold.now gate.now gold_start.now gate_start.now depth words.old result.aig.count words.new result.any_mismatch.0 }
{
    let start = Base::start(words, gold_start, gate_start);
    counterexample_cycles(gold, gate, words, start, depth + 1)
}
