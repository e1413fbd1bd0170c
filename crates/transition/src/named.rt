// The transition system of a design with its ports and states in byte order of names.
ghost use Rattle.transition.specs.Named.{Lowerable, SystemMade};

use crate::gather::{gather, nodes_of, port_literals};
use crate::system::System;
use lowering::lowering::from_netlist;
use struo_ir::design::Design;

// The transition system of a design with its ports and states in byte order of names. Its graph is left at `base`.
pub fn system(words: &mut [u32], design: Design, base: usize) -> System
    requires { Lowerable design base words.old }
    ensures { SystemMade design base words.old result words.new }
{
    let inputs = design.inputs;
    let outputs = design.outputs;
    let registers = design.registers;
    let lowered = from_netlist(words, design.netlist, base);
    let literals = port_literals(words, inputs);
    let input_nodes = nodes_of(literals, inputs.count);
    let output_literals = port_literals(words, outputs);
    let next = gather(registers, lowered.next);
    let variables = gather(registers, lowered.variables);
    System {
        base,
        count: lowered.count as usize,
        input_count: inputs.count,
        output_count: outputs.count,
        state_count: registers.count,
        inputs: input_nodes,
        outputs: output_literals,
        next,
        variables,
    }
}
