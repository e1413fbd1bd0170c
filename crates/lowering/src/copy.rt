// The copy of the finished graph to a side's place.
ghost use Rattle.std.specs.Prelude.{◌≡◌, ◌≤◌, length};
ghost use Rattle.words.specs.Layout.{LENT, MOST-NODES, GOLD-LHS, GATE-LHS};
ghost use Rattle.lowering.specs.System.{copied, Copying};

use words::{GRAPH_LHS, GRAPH_RHS, SMALL, fetch, stash};

// Copies node i of the proof graph to the side at `base`.
fn copy_node(words: &mut [u32], base: usize, i: usize)
    requires { (LENT ≤ length words.old) × (GOLD-LHS ≤ base) × (base ≤ GATE-LHS) }
    ensures { (words.new ≡ copied base words.old i) × (LENT ≤ length words.new) }
{
    let lhs = fetch(words, GRAPH_LHS, SMALL, i);
    let rhs = fetch(words, GRAPH_RHS, SMALL, i);
    stash(words, base, SMALL, i, lhs);
    stash(words, base + SMALL, SMALL, i, rhs);
}

// Copies the first `count` nodes of the proof graph to the side at `base`.
pub fn copy_graph(words: &mut [u32], base: usize, count: usize)
    requires { (LENT ≤ length words.old) × (GOLD-LHS ≤ base) × (base ≤ GATE-LHS) × (count ≤ MOST-NODES) }
    ensures { Copying base words.old count words.new × (LENT ≤ length words.new) }
{
    for i in 0..count {
        copy_node(words, base, i);
    }
}
