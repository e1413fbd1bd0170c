// The table that is made once for a netlist: the rank of each Input's name.
ghost use Rattle.std.specs.Prelude.{◌≡◌, ◌≤◌, position};
ghost use Rattle.model.specs.Names.{rank, same_name};
ghost use Rattle.struo_ir.specs.Decoded.{name_at};
ghost use Rattle.struo_ir.specs.Designs.{Sized};
ghost use Rattle.struo_ir.specs.Orders.{Formed, places};
ghost use Rattle.run.specs.RunTables.{input_rank, Ranked};

use fields::kinds::INPUT;
use name_order::names::same_name;
use struo_ir::design::{Entry, Order};
use struo_ir::netlist::{Netlist, Node};

// The place of the first entry that has the name of a place of another record, if there is one.
fn first_named(bytes: &[u8], place: usize, other: &[u8], entries: &[Entry]) -> Option<usize>
    ensures { result ≡ position (λ e. same_name (name_at bytes.now place) (name_at other.now e.name)) entries.now }
{
    entries
        .iter()
        .position(|e| same_name(bytes, place, other, usize::from(e.name)))
}

// Where the name at a place stands in an order by name of another record; the order's count if it is not there.
fn rank_in(bytes: &[u8], place: usize, other: &[u8], order: Order) -> usize
    requires { Formed order }
    ensures { (result ≤ 128) × (result ≡ rank (name_at bytes.now place) (places other.now order)) }
{
    first_named(bytes, place, other, &order.entries[..order.count]).unwrap_or(order.count)
}

// The rank of an Input's name; 0 for another node.
fn node_rank(bytes: &[u8], node: Node, other: &[u8], order: Order) -> u16
    requires { Formed order }
    ensures { result ≡ input_rank bytes.now (places other.now order) node }
{
    if node.kind == INPUT {
        rank_in(bytes, usize::from(node.detail), other, order) as u16
    } else {
        0
    }
}

// The rank of each Input's name among the inputs of gold; 0 elsewhere.
pub fn input_ranks(bytes: &[u8], netlist: Netlist, gold: &[u8], order: Order) -> [u16; 1024]
    requires { (Sized netlist) × (Formed order) }
    ensures { Ranked bytes.now (places gold.now order) netlist result }
{
    let mut ranks = [0u16; 1024];
    for i in 0..netlist.node_count {
        let rank = node_rank(bytes, netlist.nodes[i], gold, order);
        ranks[i] = rank;
    }
    ranks
}
