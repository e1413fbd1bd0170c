// The checks of the registers: 9 a name a second time, 10 an output that is no RegisterOutput, 11 an output a second time, 12 a number not below the node count.
ghost use Rattle.std.specs.Prelude.{◌≡◌, ℕ, List, []};
ghost use Rattle.model.specs.Validate.{all_below, registers_fault, register_numbers};
ghost use Rattle.calls.specs.Causes.{fault_of};
ghost use Rattle.struo_ir.specs.Decoded.{decoded_register, decoded};
ghost use Rattle.struo_ir.specs.Designs.{Padded};
ghost use Rattle.netlist_checks.specs.RegisterChecks.{signal_below};

use crate::names::{repeated, taken};
use calls::refusal::{Cause, Refusal};
use fields::kinds::REGISTER_OUTPUT;
use struo_ir::netlist::{Netlist, RegisterCell};

// The data, clock, enable and reset numbers of the register are below the count.
fn nets_below(cell: RegisterCell, count: usize) -> bool
    ensures { (s : List ℕ) → result ≡ all_below count (register_numbers (decoded_register s cell)) }
{
    if count <= cell.data as usize {
        return false;
    }
    if count <= cell.clock as usize {
        return false;
    }
    if signal_below(cell.enable, cell.enable_signal, count) {
        return signal_below(cell.reset, cell.reset_signal, count);
    }
    false
}

// The signal of an enable or a reset, where its code has one, is below the count.
fn signal_below(code: u8, signal: u16, count: usize) -> bool
    ensures { result ≡ signal_below code signal count }
{
    if code == 0 {
        return true;
    }
    (signal as usize) < count
}

// 9 to 12, by register.
pub fn registers_fault(bytes: &[u8], netlist: Netlist) -> Result<(), Refusal>
    requires { Padded netlist }
    ensures { fault_of result ≡ registers_fault (decoded bytes.now netlist).nodes 0 [] [] (decoded bytes.now netlist).registers }
{
    let count = netlist.node_count;
    let total = netlist.register_count;
    let mut names = [0u16; 1024];
    let mut outputs = [0u16; 1024];
    for i in 0..total {
        let cell = netlist.registers[i];
        if repeated(bytes, &names, i, cell.name) {
            return Err(Refusal::at(Cause::DuplicateRegisterName, i as u32));
        }
        let o = cell.output as usize;
        if count <= o {
            return Err(Refusal::at(Cause::InvalidRegisterOutput, i as u32));
        }
        let node = netlist.nodes[o];
        if node.kind != REGISTER_OUTPUT {
            return Err(Refusal::at(Cause::InvalidRegisterOutput, i as u32));
        }
        if taken(&outputs, i, cell.output) {
            return Err(Refusal::at(Cause::MultipleDrivers, i as u32));
        }
        if nets_below(cell, count) {
            names[i] = cell.name;
            outputs[i] = cell.output;
        } else {
            return Err(Refusal::at(Cause::RegisterNet, i as u32));
        }
    }
    Ok(())
}
