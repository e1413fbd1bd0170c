// Propagation: the pending clauses of a literal that has become false, and the literals of the trail in turn.
ghost use Rattle.std.specs.Prelude.{◌≡◌, [], map, ◌+◌, ◌-◌, ◌*◌, ◌<◌, ◌≤◌, length, get_or};
ghost use Rattle.words.specs.Layout.{LENT, CELLS, LINKS};
ghost use Rattle.words.specs.Region.{region};
ghost use Rattle.model.specs.Sat as Sat;
ghost use Rattle.clauses.specs.Clauses.{half};
ghost use Rattle.clauses.specs.State.{solver_of, SoundStore, Step};
ghost use Rattle.watches.specs.State.{trail_of, propagation_of, pending_of, appended, advanced, Propagates, Taken, Visiting, Visits};

use crate::state::{Pending, Propagation};
use crate::visit::visit;
use assignment::state::Trail;
use clauses::queue::push_back;
use clauses::state::Store;
use literals::Literal;
use words::{LINKS, TRAIL, WATCH_COUNTS, WATCH_HEADS, load, put};

// The pending cells after the first.
fn rest(words: &[u32], d: Pending) -> Pending
    requires { (LENT ≤ length words.now) × (0 < d.left) × (d.cell < CELLS) }
    ensures { (result.cell ≡ get_or (region LINKS words.now) d.cell 0) × (result.left ≡ d.left - 1) }
{
    Pending {
        cell: load(words, LINKS, d.cell as usize),
        left: d.left - 1,
    }
}

// The first pending clause stays with f.
fn keep(words: &mut [u32], store: Store, t: Trail, f: Literal, d: Pending)
    requires { Visiting store t words.old d × (f.0 < t.variables * 2) }
    ensures { Visits store t words.old d t words.new
        × ((s : Sat.Solver) → solver_of s store t words.new ≡ Sat.keep_watch f.0 (half d.cell) (solver_of s store t words.old)) }
{
    push_back(words, f.0 as usize, d.cell);
}

// The pending clauses go back to the queue of f, in order.
fn restore(words: &mut [u32], store: Store, t: Trail, f: Literal, first: Pending)
    requires { SoundStore store t words.old (pending_of first words.old) × (0 < first.left → f.0 < t.variables * 2) }
    ensures { Step store t words.old t words.new []
        × ((s : Sat.Solver) → solver_of s store t words.new ≡ appended f.0 (map half (pending_of first words.old)) (solver_of s store t words.old)) }
{
    let mut d = first;
    while 0 < d.left {
        let next = rest(words, d);
        keep(words, store, t, f, d);
        d = next;
    }
}

// The pending clauses in order; after a conflict the rest go back to the queue of f.
fn visit_pending(
    words: &mut [u32],
    store: Store,
    start: Trail,
    f: Literal,
    first: Pending,
) -> Propagation
    requires { SoundStore store start words.old (pending_of first words.old) × (0 < first.left → f.0 < start.variables * 2) }
    ensures { Step store start words.old (trail_of result) words.new []
        × ((s : Sat.Solver) → propagation_of s store words.new result ≡ Sat.visit_pending f.0 (map half (pending_of first words.old)) (Sat.propagating (solver_of s store start words.old))) }
{
    let mut t = start;
    let mut d = first;
    while 0 < d.left {
        let next = rest(words, d);
        match visit(words, store, t, f, d) {
            Propagation::Propagating(u) => {
                t = u;
                d = next;
            }
            Propagation::Complete(u) => return Propagation::Complete(u),
            Propagation::Conflict(id, u) => {
                restore(words, store, u, f, next);
                return Propagation::Conflict(id, u);
            }
        }
    }
    Propagation::Propagating(t)
}

// The queue of f taken whole: its cells are pending. There is none where f is no literal of the variables.
fn take_watches(words: &mut [u32], store: Store, t: Trail, f: Literal) -> Pending
    requires { SoundStore store t words.old [] }
    ensures { Taken store t words.old f.0 result words.new }
{
    let l = f.0 as usize;
    if t.variables * 2 <= l {
        return Pending { cell: 0, left: 0 };
    }
    let cell = load(words, WATCH_HEADS, l);
    let left = load(words, WATCH_COUNTS, l) as usize;
    put(words, WATCH_COUNTS, l, 0);
    Pending { cell, left }
}

// One round: the literal at the head of the trail has made its negation false.
fn propagate_round(words: &mut [u32], store: Store, t: Trail) -> Propagation
    requires { SoundStore store t words.old [] × (t.head < t.length) }
    ensures { Step store (advanced t) words.old (trail_of result) words.new []
        × ((s : Sat.Solver) → propagation_of s store words.new result ≡ Sat.propagate_round (solver_of s store t words.old)) }
{
    let f = Literal(load(words, TRAIL, t.head)).negate();
    let d = take_watches(words, store, t, f);
    let next = Trail {
        head: t.head + 1,
        ..t
    };
    visit_pending(words, store, next, f, d)
}

// Rounds until the end of the trail or a conflict.
pub fn propagate(words: &mut [u32], store: Store, start: Trail) -> Propagation
    requires { SoundStore store start words.old [] }
    ensures { Propagates store start words.old (trail_of result) words.new
        × ((s : Sat.Solver) → propagation_of s store words.new result ≡ Sat.propagate (solver_of s store start words.old)) }
{
    let mut t = start;
    while t.head < t.length {
        match propagate_round(words, store, t) {
            Propagation::Propagating(u) => t = u,
            ended => return ended,
        }
    }
    Propagation::Complete(t)
}
