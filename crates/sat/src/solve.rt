// The whole search of a graph and its assumptions.
ghost use Rattle.sat.specs.SolveLaws.{Searchable, Searches};
ghost use Rattle.sat.specs.StartLaws.{Solvable, Solves};

use crate::round::step;
use crate::state::{Answer, State};
use assignment::scores::start;
use clauses::start::encode;
use std::ops::ControlFlow::{Break, Continue};
use watches::units::initialize_units;
use words::{SEEN, SMALL, clear};

// Rounds until an answer; there are fewer than `rounds`.
fn search(
    words: &mut [u32],
    scores: &mut [f64],
    start: State,
    limit: usize,
    rounds: usize,
) -> Answer
    requires { Searchable limit start words.old scores.old rounds }
    ensures { Searches limit start words.old scores.old rounds result words.new scores.new }
{
    let mut s = start;
    for _round in 0..rounds {
        match step(words, scores, s, limit) {
            Continue(next) => s = next,
            Break(answer) => return answer,
        }
    }
    unreachable!()
}

// The answer for the graph in the first `variables` nodes of the words and the first `count` assumptions, under a limit of learned
// literals. What the search's words and scores held before is of no effect.
pub fn solve(
    words: &mut [u32],
    scores: &mut [f64],
    assumptions: &[u32],
    count: usize,
    variables: usize,
    limit: usize,
) -> Answer
    requires { Solvable limit variables words.old scores.old assumptions.now count }
    ensures { Solves limit variables words.old scores.old assumptions.now count result words.new scores.new }
{
    let encoded = encode(words, scores, assumptions, count, variables);
    if encoded.encoding.inconsistent {
        return Answer::NoModel(0);
    }
    let store = encoded.encoding.store;
    let Ok(trail) = initialize_units(words, store, encoded.trail) else {
        return Answer::NoModel(0);
    };
    clear(words, SEEN, SMALL, variables);
    let first = State {
        store,
        trail,
        activity: start(),
        learned: 0,
    };
    search(words, scores, first, limit, (limit + 2) * (variables + 2))
}
