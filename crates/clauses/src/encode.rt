// The clauses of a graph's conjunctions and of the assumptions.
ghost use Rattle.std.specs.Prelude.{◌≡◌, List, [], ◌∷◌, ℕ, ◌+◌, ◌*◌, ◌<◌, ◌≤◌, length, drop, get_or, take};
ghost use Rattle.words.specs.Layout.{POOL};
ghost use Rattle.model.specs.Sat as Sat;
ghost use Rattle.model.specs.Aig.{Node, And};
ghost use Rattle.clauses.specs.State.{solver_of, scored, SoundStore, Pooled, AddedList, Room, Roomy, Sorted, Grows, GateOf, Gates, Holds, node_in, encoded_of, numbers};

use crate::add::add_clause;
use crate::state::{Encoding, Store};
use assignment::state::Trail;
use literals::Literal;
use words::{GRAPH_LHS, GRAPH_RHS, LITERALS, POOL, SMALL, fetch, stash};

// A literal put into the pool after `count` others of the clause to come.
pub fn push_literal(words: &mut [u32], store: Store, t: Trail, count: usize, l: Literal)
    requires { SoundStore store t words.old [] × (store.literals + count < POOL) }
    ensures { Pooled store t words.old count l.0 words.new }
{
    stash(words, LITERALS, POOL, store.literals + count, l.0);
}

// A clause of literals of ascending variables.
fn add_literals(
    words: &mut [u32],
    scores: &mut [f64],
    store: Store,
    t: Trail,
    literals: &[Literal],
) -> Store
    requires { Room store t words.old scores.old (length literals.now) × Sorted (t.variables * 2) (numbers literals.now) }
    ensures { AddedList store t words.old scores.old (numbers literals.now) result words.new scores.new }
{
    for (i, &l) in literals.iter().enumerate() {
        push_literal(words, store, t, i, l);
    }
    add_clause(words, scores, store, t, literals.len())
}

// The three clauses of a conjunction whose literal is `out`.
fn add_and(
    words: &mut [u32],
    scores: &mut [f64],
    store: Store,
    t: Trail,
    out: Literal,
    lhs: Literal,
    rhs: Literal,
) -> Store
    requires { Roomy store t words.old scores.old 3 7 × GateOf t out.0 lhs.0 rhs.0 }
    ensures { Grows store t words.old scores.old 3 7 result words.new scores.new
        × ((s : Sat.Solver) → solver_of (scored s t.variables scores.new) result t words.new ≡ Sat.add_node (solver_of (scored s t.variables scores.old) store t words.old) out.0 (And lhs.0 rhs.0)) }
{
    let not_out = out.negate();
    let first = add_literals(words, scores, store, t, &[lhs, not_out]);
    let second = add_literals(words, scores, first, t, &[rhs, not_out]);
    add_literals(words, scores, second, t, &[lhs.negate(), rhs.negate(), out])
}

// The clauses of node i of the graph; a variable has none.
fn add_node(words: &mut [u32], scores: &mut [f64], store: Store, t: Trail, i: usize) -> Store
    requires { Roomy store t words.old scores.old 3 7 × Gates t.variables words.old × (0 < i) × (i < t.variables) }
    ensures { Grows store t words.old scores.old 3 7 result words.new scores.new
        × ((s : Sat.Solver) → solver_of (scored s t.variables scores.new) result t words.new ≡ Sat.add_node (solver_of (scored s t.variables scores.old) store t words.old) (i * 2) (node_in words.old i)) }
{
    let rhs = Literal(fetch(words, GRAPH_RHS, SMALL, i));
    if rhs == Literal::FALSE {
        return store;
    }
    let lhs = Literal(fetch(words, GRAPH_LHS, SMALL, i));
    add_and(words, scores, store, t, Literal::of(i as u32), lhs, rhs)
}

// The clauses of all nodes from 1 on.
pub fn add_nodes(words: &mut [u32], scores: &mut [f64], start: Store, t: Trail) -> Store
    requires { Roomy start t words.old scores.old (3 * t.variables) (7 * t.variables) × Gates t.variables words.old }
    ensures { Grows start t words.old scores.old (3 * t.variables) (7 * t.variables) result words.new scores.new
        × ((s : Sat.Solver) (g : List Node) → Holds t.variables words.old g
        → solver_of (scored s t.variables scores.new) result t words.new ≡ Sat.add_nodes (solver_of (scored s t.variables scores.old) start t words.old) 1 (drop 1 g)) }
{
    let mut store = start;
    for i in 1..t.variables {
        store = add_node(words, scores, store, t, i);
    }
    store
}

// A clause for one assumption: none for the true literal, and the false one makes the search inconsistent.
fn add_assumption(
    words: &mut [u32],
    scores: &mut [f64],
    e: Encoding,
    t: Trail,
    l: Literal,
) -> Encoding
    requires { Roomy e.store t words.old scores.old 1 1 × (l.0 < t.variables * 2) }
    ensures { Grows e.store t words.old scores.old 1 1 result.store words.new scores.new
        × ((s : Sat.Solver) → encoded_of s result t words.new scores.new ≡ Sat.add_aig_clause (encoded_of s e t words.old scores.old) (l.0 ∷ [])) }
{
    match l {
        Literal::FALSE => Encoding {
            inconsistent: true,
            ..e
        },
        Literal::TRUE => e,
        _ => Encoding {
            store: add_literals(words, scores, e.store, t, &[l]),
            ..e
        },
    }
}

// A clause for each of the first `count` assumptions.
pub fn add_assumptions(
    words: &mut [u32],
    scores: &mut [f64],
    literals: &[u32],
    count: usize,
    start: Encoding,
    t: Trail,
) -> Encoding
    requires { Roomy start.store t words.old scores.old count count × (count ≤ length literals.now) × ((i : ℕ) → i < count → get_or literals.now i 0 < t.variables * 2) }
    ensures { Grows start.store t words.old scores.old count count result.store words.new scores.new
        × ((s : Sat.Solver) → encoded_of s result t words.new scores.new ≡ Sat.add_assumptions (encoded_of s start t words.old scores.old) (take count literals.now)) }
{
    let mut e = start;
    for &literal in &literals[..count] {
        e = add_assumption(words, scores, e, t, Literal(literal));
    }
    e
}
