// Query 3 and 4: induction_closes of equivalence.rs up to the search, with its assumptions by value.
ghost use Rattle.std.specs.Prelude.{◌≡◌, true, suc, ◌+◌, ◌*◌, ◌≤◌, ◌<◌, length};
ghost use Rattle.words.specs.Layout.{MOST-NODES};
ghost use Rattle.model.specs.Equivalence.{assumed};
ghost use Rattle.aig.specs.Graph.{graph_of};
ghost use Rattle.aig.specs.Made.{Ready, Made};
ghost use Rattle.lowering.specs.Firsts.{Below};
ghost use Rattle.unrolling.specs.Naming.{MatchesBelow};
ghost use Rattle.unrolling.specs.Cycling.{Startable};
ghost use Rattle.equivalence.specs.Inducing.{join_named, cycle_cost, Cycled, Closed};
ghost use Rattle.equivalence.specs.FreeState.{Freed, Inducible, Induces};

use aig::{Aig, Built};
use literals::Literal;
use transition::system::System;
use unrolling::compare::compare_named_state;
use unrolling::cycle::compared_cycle;
use unrolling::variables::{gate_variables, new_variables};

// A graph, the states of both sides, and the assumptions so far.
#[derive(Clone, Copy)]
pub struct Induction {
    pub aig: Aig,
    pub gold_state: [u32; 128],
    pub gate_state: [u32; 128],
    pub assumptions: [u32; 128],
}

// A mismatch joined to that of the named states.
pub(crate) fn join_named(
    proof: Aig,
    words: &mut [u32],
    mismatch: Literal,
    matches: &[u32; 128],
    gold: &[u32; 128],
    gate: &[u32; 128],
    n: usize,
) -> Built
    requires { Ready proof.count words.old × (n ≤ 128) × (proof.count + (4 * n + 1) ≤ MOST-NODES) × (mismatch.0 < proof.count * 2) × Below (proof.count * 2) n gold.now × MatchesBelow (proof.count * 2) n matches.now gate.now }
    ensures { Made (4 * n + 1) proof.count words.old result.aig.count words.new result.literal.0 (join_named true n matches.now gold.now gate.now (record { aig = graph_of proof.count words.old; literal = mismatch.0 })) }
{
    let named = compare_named_state(proof, words, matches, gold, gate, n);
    named.aig.or(words, mismatch, named.literal)
}

// The mismatch of a cycle: of its outputs, joined to that of its named states where these are included.
pub fn cycle_mismatch(
    proof: Aig,
    words: &mut [u32],
    include: bool,
    mismatch: Literal,
    matches: &[u32; 128],
    gold: &[u32; 128],
    gate: &[u32; 128],
    n: usize,
) -> Built
    requires { Ready proof.count words.old × (n ≤ 128) × (proof.count + (4 * n + 1) ≤ MOST-NODES) × (mismatch.0 < proof.count * 2) × Below (proof.count * 2) n gold.now × MatchesBelow (proof.count * 2) n matches.now gate.now }
    ensures { Made (4 * n + 1) proof.count words.old result.aig.count words.new result.literal.0 (join_named include n matches.now gold.now gate.now (record { aig = graph_of proof.count words.old; literal = mismatch.0 })) }
{
    if include {
        join_named(proof, words, mismatch, matches, gold, gate, n)
    } else {
        Built {
            aig: proof,
            literal: mismatch,
        }
    }
}

// The sign of a cycle's mismatch: assumed in the last cycle, its negation in the others.
fn assumed(last: bool, literal: Literal) -> Literal
    ensures { result.0 ≡ assumed last literal.0 }
{
    if last { literal } else { literal.negate() }
}

// Cycle `n` of query 3 (named states included) or 4: its mismatch becomes assumption `n`.
fn induction_cycle(
    gold: &System,
    gate: &System,
    matches: &[u32; 128],
    words: &mut [u32],
    include: bool,
    last: bool,
    state: Induction,
    n: usize,
) -> Induction
    requires { Startable (cycle_cost gold.now gate.now words.old) gold.now gate.now state.aig.count words.old state.gold_state state.gate_state × Below (gate.now.state_count + 1) gold.now.state_count matches.now × (n < 128) × (length state.assumptions ≡ 128) }
    ensures { Cycled gold.now gate.now matches.now include last n state.aig.count words.old state.gold_state state.gate_state state.assumptions result.aig.count words.new result.gold_state result.gate_state result.assumptions × (length result.assumptions ≡ 128) }
{
    let cycle = compared_cycle(
        gold,
        gate,
        state.aig,
        words,
        &state.gold_state,
        &state.gate_state,
    );
    let made = cycle_mismatch(
        cycle.aig,
        words,
        include,
        cycle.mismatch,
        matches,
        &state.gold_state,
        &state.gate_state,
        gold.state_count,
    );
    let literal = assumed(last, made.literal);
    let mut assumptions = state.assumptions;
    assumptions[n] = literal.0;
    let gold_state = cycle.frames.gold.next;
    let gate_state = cycle.frames.gate.next;
    Induction {
        aig: made.aig,
        gold_state,
        gate_state,
        assumptions,
    }
}

// `depth` cycles and the last one, whose mismatch is assumed: the assumptions of query 3 (named states included) or 4.
pub fn induction_cycles(
    gold: &System,
    gate: &System,
    matches: &[u32; 128],
    words: &mut [u32],
    include: bool,
    start: Induction,
    depth: usize,
) -> Induction
    requires { Startable (suc depth * cycle_cost gold.now gate.now words.old) gold.now gate.now start.aig.count words.old start.gold_state start.gate_state × Below (gate.now.state_count + 1) gold.now.state_count matches.now × (depth < 128) × (length start.assumptions ≡ 128) }
    ensures { Closed gold.now gate.now matches.now include depth start.aig.count words.old start.gold_state start.gate_state start.assumptions result.aig.count words.new result.assumptions }
{
    let mut state = start;
    for i in 0..depth {
        state = induction_cycle(gold, gate, matches, words, include, false, state, i);
    }
    induction_cycle(gold, gate, matches, words, include, true, state, depth)
}

// The free states of both sides: gold's by name, then gate's by name, those named alike shared where asked.
pub fn free_product_state(
    gold: &System,
    gate: &System,
    matches: &[u32; 128],
    proof: Aig,
    words: &mut [u32],
    share: bool,
) -> Induction
    requires { Ready proof.count words.old × (gold.now.state_count ≤ 128) × (gate.now.state_count ≤ 128) × (proof.count + (gold.now.state_count + gate.now.state_count) ≤ MOST-NODES) × Below (gold.now.state_count + 1) gate.now.state_count matches.now }
    ensures { Freed gold.now gate.now share matches.now proof.count words.old result.aig.count words.new result.gold_state result.gate_state × (length result.assumptions ≡ 128) }
{
    let made = new_variables(proof, words, gold.state_count);
    let aig = made.aig;
    let gold_state = made.literals;
    let other = gate_variables(aig, words, share, matches, &gold_state, gate.state_count);
    let aig = other.aig;
    let gate_state = other.literals;
    let assumptions = [0u32; 128];
    Induction {
        aig,
        gold_state,
        gate_state,
        assumptions,
    }
}

// The graph of query 3 (named states included) or 4, with its `depth` + 1 assumptions.
pub fn induction_closes(
    gold: &System,
    gate: &System,
    gold_matches: &[u32; 128],
    gate_matches: &[u32; 128],
    words: &mut [u32],
    include: bool,
    depth: usize,
) -> Induction
    requires { Inducible gold.now gate.now gold_matches.now gate_matches.now depth words.old }
    ensures { Induces gold.now gate.now gold_matches.now gate_matches.now include depth words.old result.aig.count words.new result.assumptions }
{
    let aig = Aig::new(words);
    let start = free_product_state(gold, gate, gate_matches, aig, words, include);
    induction_cycles(gold, gate, gold_matches, words, include, start, depth)
}
