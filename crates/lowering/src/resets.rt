// Resets of a design: what a register output shows, and the next bit under a reset.
ghost use Rattle.std.specs.Prelude.{◌≡◌, ℕ, ◌+◌, ◌*◌, ◌≤◌, ◌<◌, List};
ghost use Rattle.words.specs.Layout.{MOST-NODES, NETS};
ghost use Rattle.words.specs.Region.{region};
ghost use Rattle.model.specs.Transition as Model;
ghost use Rattle.aig.specs.Graph.{graph_of};
ghost use Rattle.aig.specs.Made.{Made};
ghost use Rattle.model.specs.Transition.{driver_reset};
ghost use Rattle.struo_ir.specs.Decoded.{cell_reset};
ghost use Rattle.drivers.specs.Drivers.{driver_by};
ghost use Rattle.lowering.specs.Gate.{Netted};
ghost use Rattle.lowering.specs.Step.{reset_of, reset_mux_by};

use crate::nets::{asserted_literal, constant_literal, net_literal};
use aig::{Aig, Built};
use literals::Literal;
use struo_ir::netlist::{Netlist, RegisterCell};

// The reset of a register: its codes as the record has them; zeros where there is none.
#[derive(Clone, Copy)]
pub struct ResetCell {
    pub code: u8,
    pub signal: u16,
    pub kind: u8,
    pub value: u8,
}

// The reset value while a reset is asserted, else the value.
fn reset_mux(aig: Aig, words: &mut [u32], reset: ResetCell, value: Literal) -> Built
    requires { Netted aig.count words.old × (aig.count + 3 ≤ MOST-NODES) × (value.0 < aig.count * 2) }
    ensures { Made 3 aig.count words.old result.aig.count words.new result.literal.0 (reset_mux_by (graph_of aig.count words.old) (region NETS words.old) reset value.0) }
{
    let signal = net_literal(words, reset.signal);
    let asserted = asserted_literal(signal, reset.code);
    let reset_value = constant_literal(u16::from(reset.value));
    aig.mux(words, asserted, reset_value, value)
}

// What a register output shows: its state, or the value of an asserted asynchronous reset.
pub fn shown(aig: Aig, words: &mut [u32], reset: ResetCell, state: Literal) -> Built
    requires { Netted aig.count words.old × (aig.count + 3 ≤ MOST-NODES) × (state.0 < aig.count * 2) }
    ensures { Made 3 aig.count words.old result.aig.count words.new result.literal.0 (Model.shown (graph_of aig.count words.old) (region NETS words.old) (reset_of reset) state.0) }
{
    if reset.code == 0 || reset.kind != 1 {
        return Built {
            aig,
            literal: state,
        };
    }
    reset_mux(aig, words, reset, state)
}

// The next bit, or the reset value where a reset is asserted.
pub fn reset_next(aig: Aig, words: &mut [u32], reset: ResetCell, value: Literal) -> Built
    requires { Netted aig.count words.old × (aig.count + 3 ≤ MOST-NODES) × (value.0 < aig.count * 2) }
    ensures { Made 3 aig.count words.old result.aig.count words.new result.literal.0 (Model.reset_next (record { aig = graph_of aig.count words.old; literal = value.0 }) (region NETS words.old) (reset_of reset)) }
{
    if reset.code == 0 {
        return Built {
            aig,
            literal: value,
        };
    }
    reset_mux(aig, words, reset, value)
}

// The reset of a register.
#[tactic(auto, unfolding(struo_ir::specs::Decoded::cell_reset))]
pub fn reset_cell(register: RegisterCell) -> ResetCell
    ensures { reset_of result ≡ cell_reset register }
{
    ResetCell {
        code: register.reset,
        signal: register.reset_signal,
        kind: register.reset_kind,
        value: register.reset_value,
    }
}

// The reset of the register that drives a net, by the net's entry in the table of drivers; zeros where none does.
pub fn driver_reset(netlist: Netlist, entry: u16) -> ResetCell
    requires { entry ≤ 128 }
    ensures { (s : List ℕ) → reset_of result ≡ driver_reset (driver_by s netlist.registers entry) }
{
    if entry == 0 {
        return ResetCell {
            code: 0,
            signal: 0,
            kind: 0,
            value: 0,
        };
    }
    reset_cell(netlist.registers[usize::from(entry) - 1])
}
