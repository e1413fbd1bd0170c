// The queries of one depth in the order of equivalence.rs, until one decides; and query 0, which asks of cycle 0 alone. Where none has decided the most
// learned so far goes on.
ghost use Rattle.std.specs.Prelude.{◌≡◌, suc, ◌+◌, ◌*◌, ◌≤◌, length};
ghost use Rattle.std.specs.declared.ops.ControlFlow.TheVariants.{Break};
ghost use Rattle.queries.specs.Querying.{Queryable};
ghost use Rattle.depths.specs.Deciding.{Decides, induction_number, goal_induction, goal2};
ghost use Rattle.depths.specs.Depths.{Passes, Asks0};

use crate::most::counted;
use calls::answers::Asked;
use queries::problem::{Outcome, Problem, Verdict};
use queries::query::{find_counterexample, induction_fails, named_state_differs};
use sat::state::Answer;
use std::ops::ControlFlow;

// A verdict, with the most learned so far.
fn decided(verdict: Verdict, most: Asked) -> ControlFlow<Outcome, Asked>
    ensures { result ≡ Break (record { verdict = verdict; most = most }) }
{
    ControlFlow::Break(Outcome { verdict, most })
}

// The number of the query by induction: 3 where named states are included, else 4.
fn induction_number(include: bool) -> u32
    ensures { result ≡ induction_number include }
{
    if include { 3 } else { 4 }
}

// Query 3 (named states included) or 4: equivalent where no cycle can differ after `depth` equal ones.
fn induction(
    problem: &Problem,
    words: &mut [u32],
    scores: &mut [f64],
    limit: usize,
    include: bool,
    depth: usize,
    most: Asked,
) -> ControlFlow<Outcome, Asked>
    requires { Queryable problem.now limit depth words.old scores.old }
    ensures { Decides problem.now (goal_induction include limit depth) words.old most result words.new }
{
    let answer = induction_fails(problem, words, scores, limit, include, depth);
    let number = depth as u32;
    let query = induction_number(include);
    let now = counted(most, number, query, answer);
    match answer {
        Answer::Model(_) => ControlFlow::Continue(now),
        Answer::NoModel(_) => decided(Verdict::Equivalent(number), now),
        Answer::GaveUp(_) => decided(Verdict::GaveUp(number, query), now),
    }
}

// Query 2, then query 3 where named states stay alike, then query 4, until one decides.
fn query_2(
    problem: &Problem,
    words: &mut [u32],
    scores: &mut [f64],
    limit: usize,
    depth: usize,
    most: Asked,
) -> ControlFlow<Outcome, Asked>
    requires { Queryable problem.now limit depth words.old scores.old }
    ensures { Decides problem.now (goal2 limit depth) words.old most result words.new }
{
    let answer = named_state_differs(problem, words, scores, limit, depth);
    let number = depth as u32;
    let now = counted(most, number, 2, answer);
    match answer {
        Answer::Model(_) => induction(problem, words, scores, limit, false, depth, now),
        Answer::NoModel(_) => match induction(problem, words, scores, limit, true, depth, now) {
            ControlFlow::Continue(most) => {
                induction(problem, words, scores, limit, false, depth, most)
            }
            ControlFlow::Break(outcome) => ControlFlow::Break(outcome),
        },
        Answer::GaveUp(_) => decided(Verdict::GaveUp(number, 2), now),
    }
}

// All queries of a depth; a counterexample's trace is written.
pub fn at_depth(
    problem: &Problem,
    words: &mut [u32],
    scores: &mut [f64],
    trace: &mut [u8],
    limit: usize,
    depth: usize,
    most: Asked,
) -> ControlFlow<Outcome, Asked>
    requires { Queryable problem.now limit depth words.old scores.old × (suc depth * problem.now.gold.input_count + problem.now.gold.output_count ≤ length trace.old) }
    ensures { Passes problem.now limit depth words.old trace.old most result words.new trace.new }
{
    let found = find_counterexample(problem, words, scores, trace, limit, depth);
    let answer = found.answer;
    let number = depth as u32;
    let now = counted(most, number, 1, answer);
    match answer {
        Answer::Model(_) => decided(Verdict::NotEquivalent(number, found.mismatch), now),
        Answer::NoModel(_) => query_2(problem, words, scores, limit, depth, now),
        Answer::GaveUp(_) => decided(Verdict::GaveUp(number, 1), now),
    }
}

// Query 0, of depth 1: outputs that differ in cycle 0 alone; a counterexample's trace is written.
pub fn query_0(
    problem: &Problem,
    words: &mut [u32],
    scores: &mut [f64],
    trace: &mut [u8],
    limit: usize,
    most: Asked,
) -> ControlFlow<Outcome, Asked>
    requires { Queryable problem.now limit 0 words.old scores.old × (suc 0 * problem.now.gold.input_count + problem.now.gold.output_count ≤ length trace.old) }
    ensures { Asks0 problem.now limit words.old trace.old most result words.new trace.new }
{
    let found = find_counterexample(problem, words, scores, trace, limit, 0);
    let answer = found.answer;
    let now = counted(most, 1, 0, answer);
    match answer {
        Answer::Model(_) => decided(Verdict::NotEquivalent(1, found.mismatch), now),
        Answer::NoModel(_) => ControlFlow::Continue(now),
        Answer::GaveUp(_) => decided(Verdict::GaveUp(1, 0), now),
    }
}
