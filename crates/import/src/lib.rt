// The import of a transition graph into the proof graph: import_aig and remap_literal of equivalence.rs, with the imported literals in IMPORTED.
#![tactic(auto)]

ghost use Rattle.std.specs.Prelude.{◌≡◌, ◌+◌, ◌≤◌, length};
ghost use Rattle.words.specs.Layout.{LENT, IMPORTED};
ghost use Rattle.words.specs.Region.{region};
ghost use Rattle.model.specs.Equivalence.{remap_literal};
ghost use Rattle.import.specs.Importing.{Importable, Stepped, Importing, Sourced};

use aig::Aig;
use literals::Literal;
use words::{IMPORTED, SMALL, fetch, stash};

// A literal of the source, by the literals of its nodes.
#[tactic(auto, unfolding(model::specs::Equivalence::remap_literal))]
pub fn remap_literal(literal: Literal, words: &[u32]) -> Literal
    requires { LENT ≤ length words.now }
    ensures { result.0 ≡ remap_literal (region IMPORTED words.now) literal.0 }
{
    let mapped = Literal(fetch(words, IMPORTED, SMALL, literal.node() as usize));
    if literal.inverted() {
        mapped.negate()
    } else {
        mapped
    }
}

// One node of the source: a conjunction of remapped literals; a variable keeps the literal that stands there.
fn import_node(target: Aig, words: &mut [u32], base: usize, i: usize) -> Aig
    requires { Importable base i target.count words.old }
    ensures { Stepped base i target.count words.old result.count words.new }
{
    let rhs = fetch(words, base + SMALL, SMALL, i);
    if rhs == 0 {
        return target;
    }
    let lhs = fetch(words, base, SMALL, i);
    let left = remap_literal(Literal(lhs), words);
    let right = remap_literal(Literal(rhs), words);
    let made = target.and(words, left, right);
    stash(words, IMPORTED, SMALL, i, made.literal.0);
    made.aig
}

// The graph of `count` nodes at `base` in the target; the literals of its variables stand in IMPORTED at their nodes' places.
pub fn import_aig(target: Aig, words: &mut [u32], base: usize, count: usize) -> Aig
    requires { Sourced base count target.count words.old }
    ensures { Importing base count target.count words.old count result.count words.new }
{
    let mut aig = target;
    stash(words, IMPORTED, SMALL, 0, 0);
    for i in 1..count {
        aig = import_node(aig, words, base, i);
    }
    aig
}
