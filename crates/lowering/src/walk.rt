// The walk over the nodes of a design in record order.
ghost use Rattle.std.specs.Prelude.{◌≡◌, ◌+◌, ◌≤◌, ◌<◌, length, set};
ghost use Rattle.words.specs.Layout.{LENT, TABLE, MOST-NODES, NETS, STATES};
ghost use Rattle.words.specs.Region.{region};
ghost use Rattle.model.specs.Transition as Model;
ghost use Rattle.aig.specs.Graph.{graph_of};
ghost use Rattle.struo_ir.specs.Designs.{Sized};
ghost use Rattle.drivers.specs.Drivers.{Drivers};
ghost use Rattle.lowering.specs.Driver.{Driven};
ghost use Rattle.lowering.specs.Nodes.{Taken, Walking};
ghost use Rattle.lowering.specs.System.{Started};
ghost use Rattle.model.specs.Aig.{variable};
ghost use Rattle.lowering.specs.Gate.{Netted, gate_by};
ghost use Rattle.lowering.specs.Step.{Entered, reset_of};

use crate::gates::gate;
use crate::resets::{ResetCell, driver_reset, shown};
use aig::Aig;
use fields::kinds::REGISTER_OUTPUT;
use struo_ir::netlist::{Netlist, Node};
use words::{NETS, STATES, TABLE, clear, stash};

// The net of a node that is no register output.
fn lower_gate(aig: Aig, words: &mut [u32], net: usize, node: Node) -> Aig
    requires { Netted aig.count words.old × (aig.count + 3 ≤ MOST-NODES) × (net < TABLE) }
    ensures { Entered 3 net aig.count words.old result.count words.new (region STATES words.old) (gate_by (graph_of aig.count words.old) (region NETS words.old) node.kind node.detail node.first node.second node.third) }
{
    let made = gate(aig, words, node);
    stash(words, NETS, TABLE, net, made.literal.0);
    made.aig
}

// The net of a register output: a new variable, then what it shows.
fn lower_register_output(aig: Aig, words: &mut [u32], net: usize, reset: ResetCell) -> Aig
    requires { Netted aig.count words.old × (aig.count + 4 ≤ MOST-NODES) × (net < TABLE) }
    ensures { Entered 4 net aig.count words.old result.count words.new (set (region STATES words.old) net (variable (graph_of aig.count words.old)).literal) (Model.shown (variable (graph_of aig.count words.old)).aig (region NETS words.old) (reset_of reset) (variable (graph_of aig.count words.old)).literal) }
{
    let made = aig.variable(words);
    stash(words, STATES, TABLE, net, made.literal.0);
    let seen = shown(made.aig, words, reset, made.literal);
    stash(words, NETS, TABLE, net, seen.literal.0);
    seen.aig
}

// One node, at its own number, with its net's entry in the table of drivers.
fn lower_node(
    aig: Aig,
    words: &mut [u32],
    net: usize,
    node: Node,
    netlist: Netlist,
    entry: u16,
) -> Aig
    requires { Netted aig.count words.old × (aig.count + 4 ≤ MOST-NODES) × (net < TABLE) × (entry ≤ 128) × Driven netlist net entry }
    ensures { Taken node netlist net aig.count words.old result.count words.new }
{
    if node.kind == REGISTER_OUTPUT {
        lower_register_output(aig, words, net, driver_reset(netlist, entry))
    } else {
        lower_gate(aig, words, net, node)
    }
}

// All nodes in record order.
pub fn lower_nodes(start: Aig, words: &mut [u32], netlist: Netlist, table: [u16; 1024]) -> Aig
    requires { Netted start.count words.old × (start.count ≤ 1) × Sized netlist × Drivers netlist table }
    ensures { Walking netlist start.count words.old netlist.node_count result.count words.new }
{
    let mut aig = start;
    for (i, node) in netlist.nodes[..netlist.node_count].iter().enumerate() {
        aig = lower_node(aig, words, i, *node, netlist, table[i]);
    }
    aig
}

// Makes the words ready for a walk: the empty graph, every net FALSE, no state variable.
pub fn start_walk(words: &mut [u32]) -> Aig
    requires { LENT ≤ length words.old }
    ensures { (result.count ≡ 1) × Started words.old words.new }
{
    clear(words, NETS, TABLE, TABLE);
    clear(words, STATES, TABLE, TABLE);
    Aig::new(words)
}
