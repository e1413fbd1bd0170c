// New variables of the proof graph: the inputs of a cycle, and the free states of both sides.
ghost use Rattle.std.specs.Prelude.{◌≡◌, ℕ, IfSome, [], ◌+◌, ◌*◌, ◌≤◌, ◌<◌};
ghost use Rattle.words.specs.Layout.{MOST-NODES};
ghost use Rattle.aig.specs.Graph.{graph_of};
ghost use Rattle.aig.specs.Made.{Ready, Made};
ghost use Rattle.unrolling.specs.Matched.{literal_of, gate_of, Places, Gives, listed_by};
ghost use Rattle.unrolling.specs.Matching.{at_match, shared_match, gate_by};
ghost use Rattle.unrolling.specs.Naming.{MatchesBelow};
ghost use Rattle.unrolling.specs.Variables.{Listed, grown};

use aig::{Aig, Built};
use literals::Literal;

// A graph and literals of it; how many of them count, the caller knows.
#[derive(Clone, Copy)]
pub struct Literals {
    pub aig: Aig,
    pub literals: [u32; 128],
}

// The literal at a match, which is one more than its place; none for 0.
pub(crate) fn literal_at(matched: u32, literals: &[u32; 128]) -> Option<Literal>
    requires { matched ≤ 128 }
    ensures { literal_of result ≡ at_match matched literals.now }
{
    if matched == 0 {
        None
    } else {
        Some(Literal(literals[matched as usize - 1]))
    }
}

// Gold's literal of a gate state, by its match; a match counts only where named states are shared.
fn shared_literal(share: bool, matched: u32, gold: &[u32; 128]) -> Option<Literal>
    requires { matched ≤ 128 }
    ensures { literal_of result ≡ at_match (shared_match share matched) gold.now }
{
    if share {
        literal_at(matched, gold)
    } else {
        None
    }
}

// The literal that is known, or a new variable.
fn gate_variable(aig: Aig, words: &mut [u32], shared: Option<Literal>) -> Built
    requires { Ready aig.count words.old × (aig.count + 1 ≤ MOST-NODES) × IfSome shared (λ l. l.0 < aig.count * 2) }
    ensures { Made 1 aig.count words.old result.aig.count words.new result.literal.0 (gate_of (literal_of shared) (graph_of aig.count words.old)) }
{
    match shared {
        Some(literal) => Built { aig, literal },
        None => aig.variable(words),
    }
}

// `n` literals one after another: the one known at a place, or a new variable.
fn literals_by<F: Fn(usize) -> Option<Literal>>(
    proof: Aig,
    words: &mut [u32],
    n: usize,
    known: F,
) -> Literals
    requires room { Ready proof.count words.old × (n ≤ 128) × (proof.count + n ≤ MOST-NODES) }
    requires callable { (i : ℕ) → i < n → F.pre known i }
    requires told { (f : Places) × Gives (F.post known) (proof.count * 2) n f }
    ensures { (f : Places) → Gives (F.post known) (proof.count * 2) n f → Listed n proof.count words.old result.aig.count words.new result.literals (listed_by n f (record { aig = graph_of proof.count words.old; literals = [] })) }
{
    let mut aig = proof;
    let mut literals = [0u32; 128];
    for i in 0..n {
        let made = gate_variable(aig, words, known(i));
        literals[i] = made.literal.0;
        aig = made.aig;
    }
    Literals { aig, literals }
}

// So many new variables: the inputs of a cycle or the states of a side, in byte order of names.
pub fn new_variables(proof: Aig, words: &mut [u32], n: usize) -> Literals
    requires { Ready proof.count words.old × (n ≤ 128) × (proof.count + n ≤ MOST-NODES) }
    ensures { Listed n proof.count words.old result.aig.count words.new result.literals (grown n (record { aig = graph_of proof.count words.old; literals = [] })) }
{
    literals_by(proof, words, n, |_| None)
}

// The first `n` gate states in byte order of names: gold's literal where the state is shared, else a new variable.
pub fn gate_variables(
    proof: Aig,
    words: &mut [u32],
    share: bool,
    matches: &[u32; 128],
    gold: &[u32; 128],
    n: usize,
) -> Literals
    requires { Ready proof.count words.old × (n ≤ 128) × (proof.count + n ≤ MOST-NODES) × MatchesBelow (proof.count * 2) n matches.now gold.now }
    ensures { Listed n proof.count words.old result.aig.count words.new result.literals (gate_by n share matches.now gold.now (record { aig = graph_of proof.count words.old; literals = [] })) }
{
    literals_by(proof, words, n, |i| shared_literal(share, matches[i], gold))
}
