// One cycle of both sides: proof_inputs, both frames, and the outputs compared.
ghost use Rattle.std.specs.Prelude.{◌+◌, ◌*◌};
ghost use Rattle.unrolling.specs.Cycling.{frame_cost, Startable, FramesMade, Compared};

use crate::compare::compare_outputs;
use crate::frame::{Frame, import_frame};
use crate::variables::new_variables;
use aig::Aig;
use literals::Literal;
use transition::system::System;

// The inputs of a cycle, and both sides' frames; gate's was made last, so the graph with all of them is its graph.
#[derive(Clone, Copy)]
pub struct Frames {
    pub inputs: [u32; 128],
    pub gold: Frame,
    pub gate: Frame,
}

// Both sides' frames, the graph after their outputs were compared, and whether these differ.
#[derive(Clone, Copy)]
pub struct Cycle {
    pub aig: Aig,
    pub frames: Frames,
    pub mismatch: Literal,
}

// The inputs of a cycle, gold's import, gate's import.
pub fn import_frames(
    gold: &System,
    gate: &System,
    proof: Aig,
    words: &mut [u32],
    gold_state: &[u32; 128],
    gate_state: &[u32; 128],
) -> Frames
    requires { Startable (frame_cost gold.now gate.now words.old) gold.now gate.now proof.count words.old gold_state.now gate_state.now }
    ensures { FramesMade gold.now gate.now proof.count words.old gold_state.now gate_state.now result.gate.aig.count words.new result.inputs result.gold.outputs result.gold.next result.gate.outputs result.gate.next }
{
    let made = new_variables(proof, words, gold.input_count);
    let inputs = made.literals;
    let left = import_frame(gold, made.aig, words, &inputs, gold_state);
    let right = import_frame(gate, left.aig, words, &inputs, gate_state);
    Frames {
        inputs,
        gold: left,
        gate: right,
    }
}

// The inputs, gold's import, gate's import, and the outputs compared.
pub fn compared_cycle(
    gold: &System,
    gate: &System,
    proof: Aig,
    words: &mut [u32],
    gold_state: &[u32; 128],
    gate_state: &[u32; 128],
) -> Cycle
    requires { Startable (frame_cost gold.now gate.now words.old + 4 * gold.now.output_count) gold.now gate.now proof.count words.old gold_state.now gate_state.now }
    ensures { Compared gold.now gate.now proof.count words.old gold_state.now gate_state.now result.aig.count words.new result.frames.inputs result.frames.gold.outputs result.frames.gold.next result.frames.gate.outputs result.frames.gate.next result.mismatch.0 }
{
    let frames = import_frames(gold, gate, proof, words, gold_state, gate_state);
    let made = compare_outputs(
        frames.gate.aig,
        words,
        &frames.gold.outputs,
        &frames.gate.outputs,
        gold.output_count,
    );
    Cycle {
        aig: made.aig,
        frames,
        mismatch: made.literal,
    }
}
