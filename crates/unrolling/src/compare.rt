// Comparisons in the proof graph: compare_outputs and compare_named_state of equivalence.rs.
ghost use Rattle.std.specs.Prelude.{ℕ, IfSome, ◌+◌, ◌*◌, ◌≤◌, ◌<◌};
ghost use Rattle.words.specs.Layout.{MOST-NODES};
ghost use Rattle.model.specs.Equivalence.{compare_pairs};
ghost use Rattle.aig.specs.Graph.{graph_of};
ghost use Rattle.aig.specs.Made.{Ready, Made};
ghost use Rattle.lowering.specs.Firsts.{pairs, Below};
ghost use Rattle.unrolling.specs.Comparing.{or_difference};
ghost use Rattle.unrolling.specs.Matched.{literal_of, Places, Gives};
ghost use Rattle.unrolling.specs.Matching.{named_by};
ghost use Rattle.unrolling.specs.Naming.{or_named, paired_by, MatchesBelow};

use crate::variables::literal_at;
use aig::{Aig, Built};
use literals::Literal;

// The mismatch so far, or a difference of two literals.
fn or_difference(
    aig: Aig,
    words: &mut [u32],
    mismatch: Literal,
    left: Literal,
    right: Literal,
) -> Built
    requires { Ready aig.count words.old × (aig.count + 4 ≤ MOST-NODES) × (mismatch.0 < aig.count * 2) × (left.0 < aig.count * 2) × (right.0 < aig.count * 2) }
    ensures { Made 4 aig.count words.old result.aig.count words.new result.literal.0 (or_difference left.0 right.0 (record { aig = graph_of aig.count words.old; literal = mismatch.0 })) }
{
    let differs = aig.xor(words, left, right);
    differs.aig.or(words, mismatch, differs.literal)
}

// The mismatch so far, or a difference from the other side's state of that name; no such state changes nothing.
fn or_named(
    aig: Aig,
    words: &mut [u32],
    mismatch: Literal,
    literal: Literal,
    other: Option<Literal>,
) -> Built
    requires { Ready aig.count words.old × (aig.count + 4 ≤ MOST-NODES) × (mismatch.0 < aig.count * 2) × (literal.0 < aig.count * 2) × IfSome other (λ l. l.0 < aig.count * 2) }
    ensures { Made 4 aig.count words.old result.aig.count words.new result.literal.0 (or_named literal.0 (literal_of other) (record { aig = graph_of aig.count words.old; literal = mismatch.0 })) }
{
    match other {
        Some(other) => or_difference(aig, words, mismatch, literal, other),
        None => Built {
            aig,
            literal: mismatch,
        },
    }
}

// Whether one of the first `n` literals differs from the other side's at its place; where there is none nothing is compared.
fn compare<F: Fn(usize) -> Option<Literal>>(
    proof: Aig,
    words: &mut [u32],
    literals: &[u32; 128],
    n: usize,
    other: F,
) -> Built
    requires room { Ready proof.count words.old × (n ≤ 128) × (proof.count + 4 * n ≤ MOST-NODES) × Below (proof.count * 2) n literals.now }
    requires callable { (i : ℕ) → i < n → F.pre other i }
    requires told { (f : Places) × Gives (F.post other) (proof.count * 2) n f }
    ensures { (f : Places) → Gives (F.post other) (proof.count * 2) n f → Made (4 * n) proof.count words.old result.aig.count words.new result.literal.0 (compare_pairs (graph_of proof.count words.old) (paired_by n f literals.now)) }
{
    let mut aig = proof;
    let mut mismatch = Literal::FALSE;
    for i in 0..n {
        let made = or_named(aig, words, mismatch, Literal(literals[i]), other(i));
        aig = made.aig;
        mismatch = made.literal;
    }
    Built {
        aig,
        literal: mismatch,
    }
}

// Whether one of the first `n` pairs differs: of outputs, both sides' in byte order of the same names.
pub fn compare_outputs(
    proof: Aig,
    words: &mut [u32],
    gold: &[u32; 128],
    gate: &[u32; 128],
    n: usize,
) -> Built
    requires { Ready proof.count words.old × (n ≤ 128) × (proof.count + 4 * n ≤ MOST-NODES) × Below (proof.count * 2) n gold.now × Below (proof.count * 2) n gate.now }
    ensures { Made (4 * n) proof.count words.old result.aig.count words.new result.literal.0 (compare_pairs (graph_of proof.count words.old) (pairs n gold.now gate.now)) }
{
    compare(proof, words, gold, n, |i| Some(Literal(gate[i])))
}

// Whether states named alike differ, of the first `n` gold states, by their matches.
pub fn compare_named_state(
    proof: Aig,
    words: &mut [u32],
    matches: &[u32; 128],
    gold: &[u32; 128],
    gate: &[u32; 128],
    n: usize,
) -> Built
    requires { Ready proof.count words.old × (n ≤ 128) × (proof.count + 4 * n ≤ MOST-NODES) × Below (proof.count * 2) n gold.now × MatchesBelow (proof.count * 2) n matches.now gate.now }
    ensures { Made (4 * n) proof.count words.old result.aig.count words.new result.literal.0 (compare_pairs (graph_of proof.count words.old) (named_by n matches.now gold.now gate.now)) }
{
    compare(proof, words, gold, n, |i| literal_at(matches[i], gate))
}
