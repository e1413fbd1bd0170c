// The check of the resets: 14 an asynchronous reset whose signal is not below the RegisterOutput that it shows at.
ghost use Rattle.std.specs.Prelude.{◌≡◌, ℕ, ◌&&◌, List, eqb};
ghost use Rattle.model.specs.Kinds.{register_output_kind};
ghost use Rattle.model.specs.Validate.{reset_fault};
ghost use Rattle.calls.specs.Causes.{fault_of};
ghost use Rattle.struo_ir.specs.Decoded.{decoded};
ghost use Rattle.struo_ir.specs.Designs.{Padded};
ghost use Rattle.drivers.specs.Drivers.{Drivers};
ghost use Rattle.netlist_checks.specs.ResetChecks.{late_cell};

use calls::refusal::{Cause, Refusal};
use drivers::register_of;
use fields::kinds::REGISTER_OUTPUT;
use struo_ir::netlist::{Netlist, RegisterCell};

// A RegisterOutput i with a driver whose reset is asynchronous and has a signal not below i.
fn is_late(kind: u8, driver: u16, cell: RegisterCell, i: usize) -> bool
    ensures { result ≡ (eqb kind register_output_kind && late_cell driver cell i) }
{
    if kind != REGISTER_OUTPUT {
        return false;
    }
    if driver == 0 {
        return false;
    }
    if cell.reset == 0 {
        return false;
    }
    if cell.reset_kind != 1 {
        return false;
    }
    i <= cell.reset_signal as usize
}

// 14: the lowest RegisterOutput with such a driver, by the table of drivers.
pub fn reset_fault(netlist: Netlist, table: [u16; 1024]) -> Result<(), Refusal>
    requires { Padded netlist × Drivers netlist table }
    ensures { (s : List ℕ) → fault_of result ≡ reset_fault (decoded s netlist).registers 0 (decoded s netlist).nodes }
{
    let count = netlist.node_count;
    for i in 0..count {
        let node = netlist.nodes[i];
        let driver = table[i];
        let cell = netlist.registers[register_of(driver)];
        if is_late(node.kind, driver, cell, i) {
            return Err(Refusal::at(Cause::UnsupportedAsyncReset, i as u32));
        }
    }
    Ok(())
}
