// Gates of a design: the literal of a node from the literals of its nets.
ghost use Rattle.std.specs.Prelude.{◌+◌, ◌≤◌};
ghost use Rattle.words.specs.Layout.{MOST-NODES, NETS};
ghost use Rattle.words.specs.Region.{region};
ghost use Rattle.aig.specs.Graph.{graph_of};
ghost use Rattle.aig.specs.Made.{Made};
ghost use Rattle.lowering.specs.Gate.{Netted, pair_by, gate_by};

use crate::nets::{constant_literal, net_literal};
use aig::{Aig, Built};
use fields::kinds::{AND, CONSTANT, INPUT, MUX, NOT, OR, OUTPUT, REGISTER_OUTPUT, XOR};
use literals::Literal;
use struo_ir::netlist::Node;

// A gate of two or three inputs; FALSE for another kind.
fn pair_gate(aig: Aig, words: &mut [u32], node: Node) -> Built
    requires { Netted aig.count words.old × (aig.count + 3 ≤ MOST-NODES) }
    ensures { Made 3 aig.count words.old result.aig.count words.new result.literal.0 (pair_by (graph_of aig.count words.old) (region NETS words.old) node.kind node.first node.second node.third) }
{
    let lhs = net_literal(words, node.first);
    let rhs = net_literal(words, node.second);
    match node.kind {
        AND => aig.and(words, lhs, rhs),
        OR => aig.or(words, lhs, rhs),
        XOR => aig.xor(words, lhs, rhs),
        MUX => {
            let other = net_literal(words, node.third);
            aig.mux(words, lhs, rhs, other)
        }
        _ => Built {
            aig,
            literal: Literal::FALSE,
        },
    }
}

// Any node; of a register output, its state's variable.
pub fn gate(aig: Aig, words: &mut [u32], node: Node) -> Built
    requires { Netted aig.count words.old × (aig.count + 3 ≤ MOST-NODES) }
    ensures { Made 3 aig.count words.old result.aig.count words.new result.literal.0 (gate_by (graph_of aig.count words.old) (region NETS words.old) node.kind node.detail node.first node.second node.third) }
{
    match node.kind {
        INPUT | REGISTER_OUTPUT => aig.variable(words),
        CONSTANT => Built {
            aig,
            literal: constant_literal(node.detail),
        },
        NOT => Built {
            aig,
            literal: net_literal(words, node.first).negate(),
        },
        OUTPUT => Built {
            aig,
            literal: net_literal(words, node.first),
        },
        _ => pair_gate(aig, words, node),
    }
}
