// The queries of a depth asked: base_counterexample, base_preserves_named_state and induction_closes of equivalence.rs. Each begins a graph of its own.
ghost use Rattle.std.specs.Prelude.{suc, ◌+◌, ◌*◌, ◌≤◌, length};
ghost use Rattle.model.specs.Equivalence.{base_preserves_named_state, induction_closes};
ghost use Rattle.queries.specs.Querying.{Queryable, Queried};
ghost use Rattle.queries.specs.Finding.{Finds};

use crate::ask::ask;
use crate::problem::Problem;
use equivalence::base::base_preserves_named_state;
use equivalence::counterexample::base_counterexample;
use equivalence::induction::induction_closes;
use sat::state::Answer;
use trace::write_counterexample;

// What query 1 finds: the search's answer, and of a model, which is a counterexample, the first mismatch.
#[derive(Clone, Copy)]
pub struct Found {
    pub answer: Answer,
    pub mismatch: u32,
}

// Query 1: whether outputs differ in a cycle from 0 to `depth`; where they do, the trace is written.
pub fn find_counterexample(
    problem: &Problem,
    words: &mut [u32],
    scores: &mut [f64],
    trace: &mut [u8],
    limit: usize,
    depth: usize,
) -> Found
    requires { Queryable problem.now limit depth words.old scores.old × (suc depth * problem.now.gold.input_count + problem.now.gold.output_count ≤ length trace.old) }
    ensures { Finds problem.now limit depth words.old trace.old result words.new scores.new trace.new }
{
    let Problem {
        gold,
        gate,
        gold_start,
        gate_start,
        ..
    } = problem;
    let base = base_counterexample(gold, gate, words, gold_start, gate_start, depth);
    let assumptions = [base.any_mismatch.0; 128];
    let count = base.aig.count;
    let answer = ask(words, scores, &assumptions, 1, count, limit);
    match answer {
        Answer::Model(_) => {
            let inputs = gold.input_count;
            let outputs = gold.output_count;
            let mismatch = write_counterexample(words, trace, count, inputs, outputs, depth + 1);
            Found { answer, mismatch }
        }
        Answer::NoModel(_) => Found {
            answer,
            mismatch: 0,
        },
        Answer::GaveUp(_) => Found {
            answer,
            mismatch: 0,
        },
    }
}

// Query 2: whether states named alike differ in a cycle from 0 to `depth`.
pub fn named_state_differs(
    problem: &Problem,
    words: &mut [u32],
    scores: &mut [f64],
    limit: usize,
    depth: usize,
) -> Answer
    requires { Queryable problem.now limit depth words.old scores.old }
    ensures { Queried problem.now limit depth (λ p. base_preserves_named_state p depth) words.old result words.new scores.new }
{
    let Problem {
        gold,
        gate,
        gold_matches,
        gold_start,
        gate_start,
        ..
    } = problem;
    let base = base_preserves_named_state(
        gold,
        gate,
        gold_matches,
        words,
        gold_start,
        gate_start,
        depth,
    );
    let assumptions = [base.any_mismatch.0; 128];
    ask(words, scores, &assumptions, 1, base.aig.count, limit)
}

// Query 3 (named states included) or 4: whether cycle `depth` can differ after as many equal ones.
pub fn induction_fails(
    problem: &Problem,
    words: &mut [u32],
    scores: &mut [f64],
    limit: usize,
    include: bool,
    depth: usize,
) -> Answer
    requires { Queryable problem.now limit depth words.old scores.old }
    ensures { Queried problem.now limit depth (λ p. induction_closes p include depth) words.old result words.new scores.new }
{
    let Problem {
        gold,
        gate,
        gold_matches,
        gate_matches,
        ..
    } = problem;
    let induction = induction_closes(
        gold,
        gate,
        gold_matches,
        gate_matches,
        words,
        include,
        depth,
    );
    ask(
        words,
        scores,
        &induction.assumptions,
        depth + 1,
        induction.aig.count,
        limit,
    )
}
