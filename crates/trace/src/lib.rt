// The trace of a counterexample: the inputs of each cycle up to the first mismatch, and the outputs that differ in it.
#![tactic(auto)]

ghost use Rattle.std.specs.Prelude.{◌≡◌, ℕ, Bool, ◌++◌, ◌+◌, ◌*◌, ◌≤◌, ◌<◌, length, get_or, unwrap_or};
ghost use Rattle.words.specs.Layout.{LENT, SMALL, FRAMES, ROW, GOLD-OUTPUTS, GATE-OUTPUTS};
ghost use Rattle.words.specs.Region.{region};
ghost use Rattle.model.specs.Aig.{evaluate};
ghost use Rattle.assignment.specs.State.{model_of};
ghost use Rattle.trace.specs.Trace.{FirstMismatch, Traceable, Traced};
ghost use Rattle.trace.specs.Writing.{Wrote, bytes};
ghost use Rattle.trace.specs.Cycles.{marks_of, inputs_of};

use aig::Aig;
use literals::Literal;
use words::{FRAMES, GATE_OUTPUTS, GOLD_OUTPUTS, MISMATCH, ROW, SMALL, fetch};

// The value of the literal at a place of FRAMES.
fn value_at(words: &[u32], nodes: usize, place: usize) -> bool
    requires { LENT ≤ length words.now }
    ensures { result ≡ evaluate (model_of nodes words.now) (get_or (region FRAMES words.now) place 0) }
{
    let literal = Literal(fetch(words, FRAMES, SMALL, place));
    Aig::evaluate(literal, words, nodes)
}

// The first cycle whose mismatch the values assert.
fn first_mismatch(words: &[u32], nodes: usize, cycles: usize) -> Option<usize>
    requires { (LENT ≤ length words.now) × (cycles ≤ 65) }
    ensures { FirstMismatch nodes cycles words.now (unwrap_or result 0) }
{
    for cycle in 0..cycles {
        if value_at(words, nodes, ROW * cycle + MISMATCH) {
            return Some(cycle);
        }
    }
    None
}

// `n` bits as bytes, written from a place of the trace on.
fn write_bits<F: Fn(usize) -> bool>(trace: &mut [u8], place: usize, n: usize, bit: F)
    requires room { place + n ≤ length trace.old }
    requires callable { (i : ℕ) → i < n → F.pre bit i }
    ensures { (f : ℕ → Bool) → ((i : ℕ) (b : Bool) → i < n → F.post bit i b → b ≡ f i) → Wrote place (bytes f n) trace.old trace.new }
{
    for i in 0..n {
        trace[place + i] = u8::from(bit(i));
    }
}

// The inputs of the first `n` cycles, written from the trace's first byte on.
fn write_inputs(words: &[u32], trace: &mut [u8], nodes: usize, input_count: usize, n: usize)
    requires { (LENT ≤ length words.now) × (input_count ≤ 128) × (n ≤ 65) × (n * input_count ≤ length trace.old) }
    ensures { Wrote 0 (inputs_of (model_of nodes words.now) input_count n (region FRAMES words.now)) trace.old trace.new }
{
    for cycle in 0..n {
        let row = ROW * cycle;
        write_bits(trace, cycle * input_count, input_count, |i| {
            value_at(words, nodes, row + i)
        });
    }
}

// The inputs of cycles 0 to `mismatch`, then the marks of that cycle.
fn write_trace(
    words: &[u32],
    trace: &mut [u8],
    nodes: usize,
    input_count: usize,
    output_count: usize,
    mismatch: usize,
)
    requires { (LENT ≤ length words.now) × (input_count ≤ 128) × (output_count ≤ 128) × (mismatch ≤ 64) × ((mismatch + 1) * input_count + output_count ≤ length trace.old) }
    ensures { Wrote 0 (inputs_of (model_of nodes words.now) input_count (mismatch + 1) (region FRAMES words.now) ++ marks_of (model_of nodes words.now) output_count (ROW * mismatch + GOLD-OUTPUTS) (ROW * mismatch + GATE-OUTPUTS) (region FRAMES words.now)) trace.old trace.new }
{
    write_inputs(words, trace, nodes, input_count, mismatch + 1);
    let row = ROW * mismatch;
    write_bits(trace, (mismatch + 1) * input_count, output_count, |i| {
        let gold = value_at(words, nodes, row + GOLD_OUTPUTS + i);
        let gate = value_at(words, nodes, row + GATE_OUTPUTS + i);
        gold != gate
    });
}

// The trace of query 1's comparisons under the values that the search left, over the first bytes lent; the answer is the first mismatch.
pub fn write_counterexample(
    words: &[u32],
    trace: &mut [u8],
    nodes: u32,
    input_count: usize,
    output_count: usize,
    cycles: usize,
) -> u32
    requires { Traceable input_count output_count cycles words.now trace.old }
    ensures { Traced nodes input_count output_count cycles words.now trace.old result trace.new }
{
    let mismatch = first_mismatch(words, nodes as usize, cycles).unwrap_or(0);
    write_trace(
        words,
        trace,
        nodes as usize,
        input_count,
        output_count,
        mismatch,
    );
    mismatch as u32
}
