// Registers of a design: each one's next-state literal and its variable, in record order.
ghost use Rattle.std.specs.Prelude.{◌≡◌, length, get_or, ◌+◌, ◌*◌, ◌≤◌, ◌<◌};
ghost use Rattle.words.specs.Layout.{LENT, MOST-NODES, NETS, STATES};
ghost use Rattle.words.specs.Region.{region};
ghost use Rattle.model.specs.Transition.{net_literal};
ghost use Rattle.model.specs.Transition as Model;
ghost use Rattle.aig.specs.Graph.{graph_of};
ghost use Rattle.aig.specs.Made.{Made};
ghost use Rattle.struo_ir.specs.Decoded.{cell_enable};
ghost use Rattle.struo_ir.specs.Designs.{Sized};
ghost use Rattle.lowering.specs.Registers.{Registered, Registering};
ghost use Rattle.lowering.specs.Gate.{Netted};

use crate::nets::{asserted_literal, net_literal};
use crate::resets::{reset_cell, reset_next};
use aig::{Aig, Built};
use literals::Literal;
use struo_ir::netlist::{Netlist, RegisterCell};
use words::{STATES, TABLE, fetch};

// The data, or the state where an enable is not asserted.
fn enabled(aig: Aig, words: &mut [u32], register: RegisterCell, state: Literal) -> Built
    requires { Netted aig.count words.old × (aig.count + 3 ≤ MOST-NODES) × (state.0 < aig.count * 2) }
    ensures { Made 3 aig.count words.old result.aig.count words.new result.literal.0 (Model.enabled (graph_of aig.count words.old) (region NETS words.old) (cell_enable register) (net_literal (region NETS words.old) register.«data») state.0) }
{
    let data = net_literal(words, register.data);
    if register.enable == 0 {
        return Built { aig, literal: data };
    }
    let signal = net_literal(words, register.enable_signal);
    let asserted = asserted_literal(signal, register.enable);
    aig.mux(words, asserted, data, state)
}

// A register lowered: the graph, its next-state literal, and the number of its variable's node.
#[derive(Clone, Copy)]
pub struct StateBit {
    pub aig: Aig,
    pub next: Literal,
    pub variable: u32,
}

// The literal of the variable of a register output's net.
fn state_literal(words: &[u32], net: u16) -> Literal
    requires { LENT ≤ length words.now }
    ensures { result.0 ≡ get_or (region STATES words.now) net 0 }
{
    Literal(fetch(words, STATES, TABLE, usize::from(net)))
}

// One register: the enable's mux, then the reset's.
fn lower_register(aig: Aig, words: &mut [u32], register: RegisterCell) -> StateBit
    requires { Netted aig.count words.old × (aig.count + 6 ≤ MOST-NODES) }
    ensures { Registered register aig.count words.old result.aig.count words.new result.next.0 result.variable }
{
    let state = state_literal(words, register.output);
    let held = enabled(aig, words, register, state);
    let made = reset_next(held.aig, words, reset_cell(register), held.literal);
    StateBit {
        aig: made.aig,
        next: made.literal,
        variable: state.node(),
    }
}

// The registers lowered: the graph, and by register number the next-state literals and the numbers of the variables' nodes.
#[derive(Clone, Copy)]
pub struct Registers {
    pub aig: Aig,
    pub next: [u32; 128],
    pub variables: [u32; 128],
}

// All registers in record order.
pub fn lower_registers(start: Aig, words: &mut [u32], netlist: Netlist) -> Registers
    requires { Netted start.count words.old × (start.count ≤ 4097) × Sized netlist }
    ensures { Registering netlist start.count words.old netlist.register_count result.aig.count words.new result.next result.variables }
{
    let mut aig = start;
    let mut next = [0u32; 128];
    let mut variables = [0u32; 128];
    let registers = &netlist.registers[..netlist.register_count];
    for (i, register) in registers.iter().enumerate() {
        let bit = lower_register(aig, words, *register);
        next[i] = bit.next.0;
        variables[i] = bit.variable;
        aig = bit.aig;
    }
    Registers {
        aig,
        next,
        variables,
    }
}
