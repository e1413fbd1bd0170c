// A netlist with its orders by name: a design as it travels.
ghost use Rattle.std.specs.Prelude.{◌≡◌};
ghost use Rattle.struo_ir.specs.Designs.{Within, Ordered};

use crate::order::{inputs_by_name, outputs_by_name, registers_by_name};
use struo_ir::design::Design;
use struo_ir::netlist::Netlist;

// The netlist with its Inputs, Outputs and registers in byte order of names.
pub fn by_name(bytes: &[u8], netlist: Netlist) -> Design
    requires { Within bytes.now netlist }
    ensures { (result.netlist ≡ netlist) × Ordered bytes.now result }
{
    let inputs = inputs_by_name(bytes, netlist);
    let outputs = outputs_by_name(bytes, netlist);
    let registers = registers_by_name(bytes, netlist);
    Design {
        netlist,
        inputs,
        outputs,
        registers,
    }
}
