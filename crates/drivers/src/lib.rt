// The register that drives each net of a netlist: one table by net, for the checks, the run and the lowering.
#![tactic(auto)]

ghost use Rattle.std.specs.Prelude.{◌≡◌, ◌+◌, ◌<◌, ◌%◌};
ghost use Rattle.struo_ir.specs.Designs.{Sized};
ghost use Rattle.drivers.specs.Drivers.{Drivers};

use struo_ir::netlist::Netlist;

// For each net one more than the first register that drives it, counted from 0; 0 for none.
pub fn drivers(netlist: Netlist) -> [u16; 1024]
    requires { Sized netlist }
    ensures { Drivers netlist result }
{
    let mut table = [0u16; 1024];
    for k in (0..netlist.register_count).rev() {
        let o = usize::from(netlist.registers[k].output);
        if o < 1024 {
            table[o] = k as u16 + 1;
        }
    }
    table
}

// The register that an entry of the table names: one less than the entry; 127 for 0, which names none.
pub fn register_of(driver: u16) -> usize
    ensures { (result < 128) × (result ≡ (driver + 127) % 128) }
{
    (usize::from(driver) + 127) % 128
}
