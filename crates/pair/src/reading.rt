// Both records of a pair read, gold's refusals 1 to 15 and 30 before gate's; both designs with their orders by name.
ghost use Rattle.model.specs.Validate.{read_record};
ghost use Rattle.pair.specs.PairReading.{GateRead, PairRead};

use crate::accepted::{Accepted, Pair};
use calls::refusal::{Refusal, Side};
use name_order::design::by_name;
use netlist_checks::record::read_record;
use struo_ir::netlist::Netlist;

// The record of gate, whose refusal is on gate's side.
fn read_gate(bytes: &[u8]) -> Result<Netlist, Refusal>
    ensures { GateRead bytes.now result }
{
    match read_record(bytes) {
        Ok(netlist) => Ok(netlist),
        Err(refusal) => Err(Refusal {
            side: Side::Gate,
            ..refusal
        }),
    }
}

// Two records of any content and length: the first refusal of 1 to 15 and 30, gold wholly before gate, or both designs.
pub fn read_pair<'a>(gold: &'a [u8], gate: &'a [u8]) -> Result<Pair<'a>, Refusal>
    ensures { PairRead gold.now gate.now result }
{
    let gold_netlist = read_record(gold)?;
    let gate_netlist = read_gate(gate)?;
    Ok(Pair {
        gold: Accepted {
            bytes: gold,
            design: by_name(gold, gold_netlist),
        },
        gate: Accepted {
            bytes: gate,
            design: by_name(gate, gate_netlist),
        },
    })
}
