// One round of the search: propagation, then the clause that a conflict teaches, or a decision.
ghost use Rattle.words.specs.Layout.{LEARNED};
ghost use Rattle.model.specs.Sat as Sat;
ghost use Rattle.assignment.specs.State.{column};
ghost use Rattle.sat.specs.State.{state_of, Assertable, Going, Stopped, Results};

use crate::decide::decide;
use crate::learn::learn;
use crate::state::{Answer, State};
use analysis::resolve::analyze;
use assignment::scores::decay_activity;
use literals::Literal;
use std::ops::ControlFlow::{self, Break, Continue};
use watches::propagate::propagate;
use watches::state::Propagation;
use watches::units::enqueue;

// The clause of the asserting literal and the `count` learned ones added, and the asserting one made true by it.
fn assert_learned(
    words: &mut [u32],
    scores: &mut [f64],
    s: State,
    asserting: Literal,
    count: usize,
    limit: usize,
) -> ControlFlow<Answer, State>
    requires { Assertable limit s words.old scores.old asserting.0 count }
    ensures { Results limit s.trail.variables words.old scores.old
        (Sat.assert_learned s.store.clauses asserting.0 (Sat.learn (state_of s words.old scores.old) (state_of s words.old scores.old).scores asserting.0 (column count LEARNED words.old)))
        result words.new scores.new }
{
    let reason = (s.store.clauses + 1) as u32;
    let total = s.learned + count + 1;
    let l = learn(words, scores, s.store, s.trail, asserting, count);
    match enqueue(words, l.store, l.trail, asserting, reason) {
        Ok(trail) => Continue(State {
            store: l.store,
            trail,
            activity: s.activity,
            learned: total,
        }),
        Err(_) => Break(Answer::NoModel(total)),
    }
}

// The search after a conflict: no model at level 0; else the clause that it teaches is learned, unless the total would pass the limit.
fn after_conflict(
    words: &mut [u32],
    scores: &mut [f64],
    s: State,
    conflict: usize,
    limit: usize,
) -> ControlFlow<Answer, State>
    requires { Stopped limit s words.old scores.old conflict }
    ensures { Results limit s.trail.variables words.old scores.old
        (Sat.after_conflict limit (state_of s words.old scores.old) conflict (Sat.decision_level (state_of s words.old scores.old).assignment))
        result words.new scores.new }
{
    if s.trail.level == 0 {
        return Break(Answer::NoModel(s.learned));
    }
    let r = analyze(
        words,
        scores,
        s.trail,
        s.activity,
        s.store.clauses,
        conflict,
    );
    let total = s.learned + r.analysis.learned + 1;
    if limit < total {
        return Break(Answer::GaveUp(s.learned));
    }
    let next = State {
        activity: decay_activity(r.analysis.activity),
        ..s
    };
    assert_learned(
        words,
        scores,
        next,
        r.pivot.negate(),
        r.analysis.learned,
        limit,
    )
}

// One round: propagation, then the clause that a conflict teaches, or a decision, or the model where every variable is assigned.
// A propagation never ends unfinished.
pub fn step(
    words: &mut [u32],
    scores: &mut [f64],
    s: State,
    limit: usize,
) -> ControlFlow<Answer, State>
    requires { Going limit s words.old scores.old }
    ensures { Results limit s.trail.variables words.old scores.old (Sat.step limit (state_of s words.old scores.old))
        result words.new scores.new }
{
    match propagate(words, s.store, s.trail) {
        Propagation::Propagating(_) => unreachable!(),
        Propagation::Complete(t) => match decide(words, scores, s.store, t) {
            None => Break(Answer::Model(s.learned)),
            Some(trail) => Continue(State { trail, ..s }),
        },
        Propagation::Conflict(id, trail) => {
            after_conflict(words, scores, State { trail, ..s }, id, limit)
        }
    }
}
