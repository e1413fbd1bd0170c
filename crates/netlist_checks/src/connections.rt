// The check of the connections: 13 a RegisterOutput that no register drives.
ghost use Rattle.std.specs.Prelude.{◌≡◌, ℕ, ◌&&◌, List, eqb};
ghost use Rattle.model.specs.Kinds.{register_output_kind};
ghost use Rattle.model.specs.Validate.{connection_fault};
ghost use Rattle.calls.specs.Causes.{fault_of};
ghost use Rattle.struo_ir.specs.Decoded.{decoded};
ghost use Rattle.struo_ir.specs.Designs.{Padded};
ghost use Rattle.drivers.specs.Drivers.{Drivers};

use calls::refusal::{Cause, Refusal};
use fields::kinds::REGISTER_OUTPUT;
use struo_ir::netlist::Netlist;

// A RegisterOutput that no register drives.
fn is_undriven(kind: u8, driver: u16) -> bool
    ensures { result ≡ (eqb kind register_output_kind && eqb driver 0) }
{
    kind == REGISTER_OUTPUT && driver == 0
}

// 13: the lowest RegisterOutput that has no register, by the table of drivers.
pub fn connection_fault(netlist: Netlist, table: [u16; 1024]) -> Result<(), Refusal>
    requires { Padded netlist × Drivers netlist table }
    ensures { (s : List ℕ) → fault_of result ≡ connection_fault (decoded s netlist).registers 0 (decoded s netlist).nodes }
{
    let count = netlist.node_count;
    for i in 0..count {
        let node = netlist.nodes[i];
        if is_undriven(node.kind, table[i]) {
            return Err(Refusal::at(Cause::UnconnectedRegister, i as u32));
        }
    }
    Ok(())
}
