// The numbers that clock a register.
ghost use Rattle.model.specs.Validate as Validate;
ghost use Rattle.struo_ir.specs.Decoded.{decoded};
ghost use Rattle.struo_ir.specs.Designs.{Padded};
ghost use Rattle.clock_reads.specs.Marks.{Marked};

use crate::marks::mark;
use struo_ir::netlist::Netlist;

// The table of the registers' clocks.
pub fn clocks(netlist: Netlist) -> [bool; 1024]
    requires { Padded netlist }
    ensures { Marked (λ s k. Validate.clocks k (decoded s netlist).registers) result }
{
    let mut table = [false; 1024];
    for cell in &netlist.registers[..netlist.register_count] {
        mark(&mut table, cell.clock);
    }
    table
}
