// The check that no clock is read as data: 30 an Input that clocks a register and that a node or a register reads.
#![tactic(auto)]

pub mod clocks;
pub mod marks;
pub mod reads;

ghost use Rattle.std.specs.Prelude.{◌≡◌, ℕ, List};
ghost use Rattle.model.specs.Validate.{clock_read_fault};
ghost use Rattle.calls.specs.Causes.{fault_of};
ghost use Rattle.struo_ir.specs.Decoded.{decoded};
ghost use Rattle.struo_ir.specs.Designs.{Padded};

use crate::clocks::clocks;
use crate::reads::reads;
use calls::refusal::{Cause, Refusal};
use struo_ir::netlist::Netlist;

// 30: the lowest number that clocks a register and is read.
pub fn clock_read_fault(netlist: Netlist) -> Result<(), Refusal>
    requires { Padded netlist }
    ensures { (s : List ℕ) → fault_of result ≡ clock_read_fault (decoded s netlist) 0 (decoded s netlist).nodes }
{
    let clocking = clocks(netlist);
    let read = reads(netlist);
    for i in 0..netlist.node_count {
        if clocking[i] && read[i] {
            return Err(Refusal::at(Cause::ClockRead, i as u32));
        }
    }
    Ok(())
}
