// The transition graph of a record, built any number of times: for measuring what building costs.
ghost use Rattle.std.specs.Prelude.{◌≡◌, ◌≤◌, length};
ghost use Rattle.words.specs.Layout.{LENT};
ghost use Rattle.model.specs.Validate.{read_record};
ghost use Rattle.struo_ir.specs.Designs.{Sized};
ghost use Rattle.solver.specs.Built.{Built, size_read};

use lowering::lowering::from_netlist;
use netlist_checks::record::read_record;
use struo_ir::netlist::Netlist;
use words::{GOLD_LHS, LENT};

// The nodes of a design's transition graph, built once and `again` times more.
fn build(words: &mut [u32], netlist: Netlist, again: u32) -> u32
    requires { (LENT ≤ length words.old) × Sized netlist }
    ensures { Built netlist result words.new }
{
    let first = from_netlist(words, netlist, GOLD_LHS);
    let mut count = first.count;
    for _ in 0..again {
        let next = from_netlist(words, netlist, GOLD_LHS);
        count = next.count;
    }
    count
}

// The nodes of a record's transition graph, node 0 among them, built once and `again` times more; 0 where the record is refused or the
// words are too few. Nothing is asked of any argument. Left open: `words`, of a refused call too, and that the graph is built so often.
pub fn struo_build(record: &[u8], again: u32, words: &mut [u32]) -> u32
    ensures { result ≡ size_read (length words.old) (read_record «record».now) }
{
    if words.len() < LENT {
        return 0;
    }
    match read_record(record) {
        Err(_) => 0,
        Ok(netlist) => build(words, netlist, again),
    }
}
