// The checks of one netlist in order: nodes, registers, connections, resets, clocks, what reads a clock. The first that refuses is the answer.
ghost use Rattle.std.specs.Prelude.{◌≡◌, ℕ, List};
ghost use Rattle.model.specs.Validate as Validate;
ghost use Rattle.calls.specs.Causes.{fault_of};
ghost use Rattle.struo_ir.specs.Decoded.{decoded};
ghost use Rattle.struo_ir.specs.Designs.{Padded};
ghost use Rattle.drivers.specs.Drivers.{Drivers};
ghost use Rattle.netlist_checks.specs.Chain.{after_registers, after_connections, after_resets};

use crate::clocks::clock_fault;
use crate::connections::connection_fault;
use crate::nodes::nodes_fault;
use crate::registers::registers_fault;
use crate::resets::reset_fault;
use calls::refusal::Refusal;
use clock_reads::clock_read_fault;
use drivers::drivers;
use struo_ir::netlist::Netlist;

// 15, then 30.
fn after_resets(netlist: Netlist) -> Result<(), Refusal>
    requires { Padded netlist }
    ensures { (s : List ℕ) → fault_of result ≡ after_resets (decoded s netlist) }
{
    clock_fault(netlist)?;
    clock_read_fault(netlist)
}

// 14, then the checks after it.
fn after_connections(netlist: Netlist, table: [u16; 1024]) -> Result<(), Refusal>
    requires { Padded netlist × Drivers netlist table }
    ensures { (s : List ℕ) → fault_of result ≡ after_connections (decoded s netlist) }
{
    reset_fault(netlist, table)?;
    after_resets(netlist)
}

// 13, then the checks after it; one table of drivers for both.
fn after_registers(netlist: Netlist) -> Result<(), Refusal>
    requires { Padded netlist }
    ensures { (s : List ℕ) → fault_of result ≡ after_registers (decoded s netlist) }
{
    let table = drivers(netlist);
    connection_fault(netlist, table)?;
    after_connections(netlist, table)
}

// The first refusal of 7 to 15 and 30.
pub fn validate(bytes: &[u8], netlist: Netlist) -> Result<(), Refusal>
    requires { Padded netlist }
    ensures { fault_of result ≡ Validate.validate (decoded bytes.now netlist) }
{
    nodes_fault(bytes, netlist)?;
    registers_fault(bytes, netlist)?;
    after_registers(netlist)
}
