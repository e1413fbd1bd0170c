// One cycle of a side in the proof graph: import_frame of equivalence.rs.
ghost use Rattle.std.specs.Prelude.{◌≡◌, ◌≤◌, length};
ghost use Rattle.words.specs.Layout.{LENT, IMPORTED};
ghost use Rattle.words.specs.Region.{region};
ghost use Rattle.model.specs.Equivalence.{remap_literal};
ghost use Rattle.lowering.specs.Firsts.{pairs, Mapped};
ghost use Rattle.unrolling.specs.Give.{given};
ghost use Rattle.unrolling.specs.Framing.{Framable, Framed};

use aig::Aig;
use import::{import_aig, remap_literal};
use literals::Literal;
use transition::system::System;
use words::{IMPORTED, SMALL, stash};

// A graph with the outputs and next states of a cycle.
#[derive(Clone, Copy)]
pub struct Frame {
    pub aig: Aig,
    pub outputs: [u32; 128],
    pub next: [u32; 128],
}

// The literals of `n` variables put at their nodes' places, from the last to the first.
fn give(words: &mut [u32], places: &[u32; 128], literals: &[u32; 128], n: usize)
    requires { (LENT ≤ length words.old) × (n ≤ 128) }
    ensures { (words.new ≡ given (pairs n places.now literals.now) words.old) × (LENT ≤ length words.new) }
{
    for i in (0..n).rev() {
        stash(words, IMPORTED, SMALL, places[i] as usize, literals[i]);
    }
}

// The first `n` literals of the source, by the literals of its nodes.
fn remap_literals(words: &[u32], literals: &[u32; 128], n: usize) -> [u32; 128]
    requires { (LENT ≤ length words.now) × (n ≤ 128) }
    ensures { Mapped (remap_literal (region IMPORTED words.now)) n literals.now result }
{
    let mut mapped = [0u32; 128];
    for (i, &source) in literals[..n].iter().enumerate() {
        let target = remap_literal(Literal(source), words);
        mapped[i] = target.0;
    }
    mapped
}

// One cycle of a side, from the literals of its inputs and states.
pub fn import_frame(
    system: &System,
    proof: Aig,
    words: &mut [u32],
    inputs: &[u32; 128],
    states: &[u32; 128],
) -> Frame
    requires { Framable system.now proof.count words.old inputs.now states.now }
    ensures { Framed system.now proof.count words.old inputs.now states.now result.aig.count words.new result.outputs result.next }
{
    give(words, &system.variables, states, system.state_count);
    give(words, &system.inputs, inputs, system.input_count);
    let aig = import_aig(proof, words, system.base, system.count);
    let outputs = remap_literals(words, &system.outputs, system.output_count);
    let next = remap_literals(words, &system.next, system.state_count);
    Frame { aig, outputs, next }
}
