// The loop over depths, and what may be asked before it: prove_sequential_equivalence of equivalence.rs.
ghost use Rattle.queries.specs.Problem.{Provable, Proves};
ghost use Rattle.depths.specs.Depths.{Deepens};
ghost use Rattle.depths.specs.Beginning.{Begins};

use crate::depth::{at_depth, query_0};
use calls::answers::Asked;
use calls::options::{Options, first_query};
use queries::problem::{Outcome, Problem, Verdict};
use std::ops::ControlFlow;

// Depths 1 to the maximum asked for, each query under the limit asked for, after queries of which `first` learned most.
fn deepen(
    problem: &Problem,
    words: &mut [u32],
    scores: &mut [f64],
    trace: &mut [u8],
    options: Options,
    first: Asked,
) -> Outcome
    requires { Provable problem.now options.limit options.depth words.old scores.old trace.old }
    ensures { Deepens problem.now options.limit options.depth words.old trace.old first result trace.new }
{
    let limit = options.limit as usize;
    let max_depth = options.depth as usize;
    let mut most = first;
    for depth in 1..max_depth + 1 {
        match at_depth(problem, words, scores, trace, limit, depth, most) {
            ControlFlow::Continue(now) => {
                most = now;
            }
            ControlFlow::Break(outcome) => {
                return outcome;
            }
        }
    }
    Outcome {
        verdict: Verdict::Inconclusive(max_depth as u32),
        most,
    }
}

// Before query 1 of depth 1: query 0 in the mode of the earliest cycle, else nothing. The most learned begins at the first query, with no literal.
fn before_query_1(
    problem: &Problem,
    words: &mut [u32],
    scores: &mut [f64],
    trace: &mut [u8],
    options: Options,
) -> ControlFlow<Outcome, Asked>
    requires { Provable problem.now options.limit options.depth words.old scores.old trace.old }
    ensures { Begins problem.now options.earliest options.limit options.depth words.old trace.old result words.new trace.new }
{
    let earliest = options.earliest;
    let query = first_query(earliest);
    let first = Asked {
        depth: 1,
        query,
        learned: 0,
    };
    if earliest {
        let limit = options.limit as usize;
        query_0(problem, words, scores, trace, limit, first)
    } else {
        ControlFlow::Continue(first)
    }
}

// The verdict after depths 1 to the maximum asked for, in the mode asked for, each query under the limit asked for, and the query that learned most; the
// trace changes for NotEquivalent only.
pub fn prove_sequential_equivalence(
    problem: &Problem,
    words: &mut [u32],
    scores: &mut [f64],
    trace: &mut [u8],
    options: Options,
) -> Outcome
    requires { Provable problem.now options.limit options.depth words.old scores.old trace.old }
    ensures { Proves problem.now options.earliest options.limit options.depth words.old trace.old result trace.new }
{
    let begun = before_query_1(problem, words, scores, trace, options);
    match begun {
        ControlFlow::Continue(most) => deepen(problem, words, scores, trace, options, most),
        ControlFlow::Break(outcome) => outcome,
    }
}
