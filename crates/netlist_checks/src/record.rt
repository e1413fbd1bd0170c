// A record read and checked: the netlist of an accepted record, or the first refusal of 1 to 15 and 30.
ghost use Rattle.std.specs.Prelude.{◌≡◌};
ghost use Rattle.model.specs.Validate.{read_record};
ghost use Rattle.struo_ir.specs.Reading.{outcome_of, PaddedWhere};

use crate::validate::validate;
use calls::refusal::Refusal;
use struo_ir::netlist::Netlist;
use struo_ir::reader::read_design;

// The netlist of a record of any content and length, or its first refusal.
pub fn read_record(bytes: &[u8]) -> Result<Netlist, Refusal>
    ensures reads { read_record bytes.now ≡ outcome_of bytes.now result }
    ensures padded { PaddedWhere result }
{
    let netlist = read_design(bytes)?;
    validate(bytes, netlist)?;
    Ok(netlist)
}
