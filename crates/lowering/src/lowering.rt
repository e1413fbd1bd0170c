// The transition system of a decoded design in lent words: transition.rs's from_netlist.
ghost use Rattle.std.specs.Prelude.{◌≤◌, length};
ghost use Rattle.words.specs.Layout.{LENT, GOLD-LHS, GATE-LHS};
ghost use Rattle.struo_ir.specs.Designs.{Sized};
ghost use Rattle.lowering.specs.System.{Lowered};

use crate::copy::copy_graph;
use crate::registers::{Registers, lower_registers};
use crate::walk::{lower_nodes, start_walk};
use drivers::drivers;
use struo_ir::netlist::Netlist;

// A transition system: how many nodes its graph has, and by register number the next-state literals and the numbers of the variables' nodes.
#[derive(Clone, Copy)]
pub struct TransitionSystem {
    pub count: u32,
    pub next: [u32; 128],
    pub variables: [u32; 128],
}

// The transition system of a design. Its graph is left at `base`, the literals of its nets in NETS.
pub fn from_netlist(words: &mut [u32], netlist: Netlist, base: usize) -> TransitionSystem
    requires { (LENT ≤ length words.old) × (GOLD-LHS ≤ base) × (base ≤ GATE-LHS) × Sized netlist }
    ensures { Lowered netlist base words.old result.count result.next result.variables words.new }
{
    let start = start_walk(words);
    let table = drivers(netlist);
    let walked = lower_nodes(start, words, netlist, table);
    let Registers {
        aig,
        next,
        variables,
    } = lower_registers(walked, words, netlist);
    copy_graph(words, base, aig.count as usize);
    TransitionSystem {
        count: aig.count,
        next,
        variables,
    }
}
