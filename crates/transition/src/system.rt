// A side of a problem: its transition graph's place in the lent words, and its literals by value.

// A transition system: `count` nodes at `base`. All arrays are in byte order of names.
#[derive(Clone, Copy)]
pub struct System {
    // Where its graph lies: GOLD_LHS or GATE_LHS.
    pub base: usize,
    // How many nodes its graph has.
    pub count: usize,
    // How many inputs, outputs and states there are.
    pub input_count: usize,
    pub output_count: usize,
    pub state_count: usize,
    // The variable node of each input.
    pub inputs: [u32; 128],
    // The literal of each output.
    pub outputs: [u32; 128],
    // The next literal of each state.
    pub next: [u32; 128],
    // The variable node of each state.
    pub variables: [u32; 128],
}
