// The check of the clocks: 15 a clock that is not an Input.
ghost use Rattle.std.specs.Prelude.{◌≡◌, ℕ, List};
ghost use Rattle.model.specs.Validate.{clock_fault};
ghost use Rattle.calls.specs.Causes.{fault_of};
ghost use Rattle.struo_ir.specs.Decoded.{decoded};
ghost use Rattle.struo_ir.specs.Designs.{Padded};

use calls::refusal::{Cause, Refusal};
use fields::kinds::INPUT;
use struo_ir::netlist::Netlist;

// 15: the first register whose clock is not an Input.
pub fn clock_fault(netlist: Netlist) -> Result<(), Refusal>
    requires { Padded netlist }
    ensures { (s : List ℕ) → fault_of result ≡ clock_fault (decoded s netlist).nodes 0 (decoded s netlist).registers }
{
    let count = netlist.node_count;
    let total = netlist.register_count;
    for i in 0..total {
        let cell = netlist.registers[i];
        let clock = cell.clock as usize;
        if count <= clock {
            return Err(Refusal::at(Cause::UnsupportedClock, i as u32));
        }
        let node = netlist.nodes[clock];
        if node.kind != INPUT {
            return Err(Refusal::at(Cause::UnsupportedClock, i as u32));
        }
    }
    Ok(())
}
