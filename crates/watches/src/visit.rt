// A visit of the first pending clause of a literal that has become false: kept, given another watched literal, its other literal enqueued, or a conflict.
ghost use Rattle.std.specs.Prelude.{◌≡◌, ◌*◌, ◌<◌};
ghost use Rattle.std.proofs.Math.Option.{some};
ghost use Rattle.model.specs.Sat as Sat;
ghost use Rattle.assignment.specs.State.{assignment_of, TrailReady};
ghost use Rattle.clauses.specs.Clauses.{clause_at, literals_of, place_in, Stands, half};
ghost use Rattle.clauses.specs.State.{solver_of, slot_of};
ghost use Rattle.watches.specs.State.{trail_of, propagation_of, slot_by, other_by, Visiting, Visits};

use crate::state::{Pending, Propagation};
use assignment::state::Trail;
use assignment::trail::{assign, value};
use clauses::clause::{clause, replacement};
use clauses::queue::push_back;
use clauses::state::Store;
use literals::Literal;
use words::{WATCHED, load, put};

// The clause stays with the false literal f, and its other literal is enqueued; a conflict where that one is false.
fn visit_enqueued(
    words: &mut [u32],
    store: Store,
    t: Trail,
    f: Literal,
    d: Pending,
    other: Literal,
) -> Propagation
    requires { Visiting store t words.old d × (other.0 < t.variables * 2) × (f.0 < t.variables * 2) }
    ensures { Visits store t words.old d (trail_of result) words.new
        × ((s : Sat.Solver) → propagation_of s store words.new result ≡ Sat.visit_enqueued (half d.cell) (Sat.keep_watch f.0 (half d.cell) (solver_of s store t words.old)) (Sat.enqueue (assignment_of t words.old) other.0 (some (half d.cell)))) }
{
    let id = d.cell / 2;
    push_back(words, f.0 as usize, d.cell);
    match value(words, t, other) {
        Some(true) => Propagation::Propagating(t),
        Some(false) => Propagation::Conflict(id as usize, t),
        None => Propagation::Propagating(assign(words, t, other, id + 1)),
    }
}

// The clause goes over to the literal l of it.
fn replace_watch(words: &mut [u32], store: Store, t: Trail, d: Pending, slot: usize, l: Literal)
    requires { Visiting store t words.old d × (slot < 2) × Stands l.0 (literals_of words.old (half d.cell)) }
    ensures { Visits store t words.old d t words.new
        × ((s : Sat.Solver) → solver_of s store t words.new ≡ Sat.replace_watch (half d.cell) (solver_of s store t words.old) (clause_at words.old (half d.cell)) (slot_of slot) (place_in l.0 (literals_of words.old (half d.cell)))) }
{
    put(words, WATCHED, (d.cell / 2) as usize * 2 + slot, l.0);
    push_back(words, l.0 as usize, d.cell);
}

// A visit whose other watched literal is not true: the clause goes over to another literal where one is not false.
fn visit_untrue(
    words: &mut [u32],
    store: Store,
    t: Trail,
    f: Literal,
    d: Pending,
    slot: usize,
    other: Literal,
) -> Propagation
    requires { Visiting store t words.old d × (slot < 2) × (other.0 < t.variables * 2) × (other.0 ≡ Sat.other_literal (clause_at words.old (half d.cell)) (slot_of slot)) × (f.0 < t.variables * 2) }
    ensures { Visits store t words.old d (trail_of result) words.new
        × ((s : Sat.Solver) → propagation_of s store words.new result ≡ Sat.visit_replacing f.0 (half d.cell) (solver_of s store t words.old) (clause_at words.old (half d.cell)) (slot_of slot) (Sat.replacement (assignment_of t words.old) (clause_at words.old (half d.cell)))) }
{
    let c = clause(words, (d.cell / 2) as usize);
    match replacement(words, t, c) {
        Some(l) => {
            replace_watch(words, store, t, d, slot, l);
            Propagation::Propagating(t)
        }
        None => visit_enqueued(words, store, t, f, d, other),
    }
}

// Whether a literal of the variables is true.
#[tactic(auto, using(crate::specs::VisitLaws::if_true))]
pub fn is_true(words: &[u32], t: Trail, l: Literal) -> bool
    requires { TrailReady t words.now × (l.0 < t.variables * 2) }
    ensures { result ≡ Sat.is_true (Sat.value (assignment_of t words.now) l.0) }
{
    value(words, t, l).unwrap_or(false)
}

// The slot of f among the two watched literals of a clause: 0 or 1, and 2 where it is neither.
#[tactic(auto, unfolding(crate::specs::State::slot_by, clauses::specs::State::slot_of))]
fn false_slot(a: Literal, b: Literal, f: Literal) -> usize
    ensures { slot_of result ≡ slot_by a.0 b.0 f.0 }
{
    if a == f {
        return 0;
    }
    if b == f { 1 } else { 2 }
}

// Of the two watched literals the one that is not in the slot.
#[tactic(auto, unfolding(crate::specs::State::other_by))]
fn other_literal(slot: usize, a: Literal, b: Literal) -> Literal
    ensures { result.0 ≡ other_by slot a.0 b.0 }
{
    if slot == 0 { b } else { a }
}

// One clause of the queue of f, which has become false: kept where its other watched literal is true. Its literals are read only where that one is not.
pub fn visit(words: &mut [u32], store: Store, t: Trail, f: Literal, d: Pending) -> Propagation
    requires { Visiting store t words.old d }
    ensures { Visits store t words.old d (trail_of result) words.new
        × ((s : Sat.Solver) → propagation_of s store words.new result ≡ Sat.visit f.0 (half d.cell) (solver_of s store t words.old)) }
{
    let id = (d.cell / 2) as usize;
    let a = Literal(load(words, WATCHED, id * 2));
    let b = Literal(load(words, WATCHED, id * 2 + 1));
    let slot = false_slot(a, b, f);
    if 1 < slot {
        return Propagation::Propagating(t);
    }
    let other = other_literal(slot, a, b);
    if is_true(words, t, other) {
        push_back(words, f.0 as usize, d.cell);
        return Propagation::Propagating(t);
    }
    visit_untrue(words, store, t, f, d, slot, other)
}
