// Query 2: base_preserves_named_state of equivalence.rs up to the search.
ghost use Rattle.std.specs.Prelude.{◌≡◌, ◌+◌, ◌*◌, ◌≤◌, ◌<◌, length};
ghost use Rattle.words.specs.Layout.{LENT};
ghost use Rattle.model.specs.Aig.{new};
ghost use Rattle.aig.specs.Graph.{graph_of};
ghost use Rattle.aig.specs.Made.{Ready, Same, outside};
ghost use Rattle.lowering.specs.Firsts.{Below};
ghost use Rattle.unrolling.specs.Cycling.{Startable};
ghost use Rattle.equivalence.specs.NamedState.{named_cost, NamedCycled, NamedLeft, Preservable, Preserves};

use crate::induction::join_named;
use aig::Aig;
use literals::Literal;
use transition::system::System;
use unrolling::cycle::import_frames;

// A graph, the states of both sides, and the mismatch of all cycles so far: query 1 and 2 between two cycles.
#[derive(Clone, Copy)]
pub struct Base {
    pub aig: Aig,
    pub gold_state: [u32; 128],
    pub gate_state: [u32; 128],
    pub any_mismatch: Literal,
}

impl Base {
    // Before the first cycle: a new graph, the literals that the states start with, and no mismatch.
    pub(crate) fn start(words: &mut [u32], gold_start: &[u32; 128], gate_start: &[u32; 128]) -> Base
        requires { LENT ≤ length words.old }
        ensures { (result.aig.count ≡ 1) × (graph_of 1 words.new ≡ new) × Ready 1 words.new × Same outside words.old words.new × (result.gold_state ≡ gold_start.now) × (result.gate_state ≡ gate_start.now) × (result.any_mismatch.0 ≡ 0) }
    {
        let aig = Aig::new(words);
        let gold_state = *gold_start;
        let gate_state = *gate_start;
        Base {
            aig,
            gold_state,
            gate_state,
            any_mismatch: Literal::FALSE,
        }
    }
}

// One cycle of query 2: the states compared, then the inputs and both frames.
fn named_state_cycle(
    gold: &System,
    gate: &System,
    matches: &[u32; 128],
    words: &mut [u32],
    base: Base,
) -> Base
    requires { Startable (named_cost gold.now gate.now words.old) gold.now gate.now base.aig.count words.old base.gold_state base.gate_state × Below (gate.now.state_count + 1) gold.now.state_count matches.now × (base.any_mismatch.0 < base.aig.count * 2) }
    ensures { NamedCycled gold.now gate.now matches.now base.aig.count words.old base.gold_state base.gate_state base.any_mismatch.0 result.aig.count words.new result.gold_state result.gate_state result.any_mismatch.0 }
{
    let made = join_named(
        base.aig,
        words,
        base.any_mismatch,
        matches,
        &base.gold_state,
        &base.gate_state,
        gold.state_count,
    );
    let frames = import_frames(
        gold,
        gate,
        made.aig,
        words,
        &base.gold_state,
        &base.gate_state,
    );
    let gold_state = frames.gold.next;
    let gate_state = frames.gate.next;
    Base {
        aig: frames.gate.aig,
        gold_state,
        gate_state,
        any_mismatch: made.literal,
    }
}

// `n` cycles of query 2.
pub fn named_state_cycles(
    gold: &System,
    gate: &System,
    matches: &[u32; 128],
    words: &mut [u32],
    start: Base,
    n: usize,
) -> Base
    requires { Startable (n * named_cost gold.now gate.now words.old) gold.now gate.now start.aig.count words.old start.gold_state start.gate_state × Below (gate.now.state_count + 1) gold.now.state_count matches.now × (start.any_mismatch.0 < start.aig.count * 2) }
    ensures { NamedLeft gold.now gate.now matches.now n start.aig.count words.old start.gold_state start.gate_state start.any_mismatch.0 0 result.aig.count words.new result.gold_state result.gate_state result.any_mismatch.0 }
{
    let mut base = start;
    for _ in 0..n {
        base = named_state_cycle(gold, gate, matches, words, base);
    }
    base
}

// The graph of query 2 in cycles 0 to `depth` from the start literals, and its assumption.
pub fn base_preserves_named_state(
    gold: &System,
    gate: &System,
    matches: &[u32; 128],
    words: &mut [u32],
    gold_start: &[u32; 128],
    gate_start: &[u32; 128],
    depth: usize,
) -> Base
    requires { Preservable gold.now gate.now matches.now gold_start.now gate_start.now depth words.old }
    ensures { Preserves gold.now gate.now matches.now gold_start.now gate_start.now depth words.old result.aig.count words.new result.any_mismatch.0 }
{
    let start = Base::start(words, gold_start, gate_start);
    named_state_cycles(gold, gate, matches, words, start, depth + 1)
}
