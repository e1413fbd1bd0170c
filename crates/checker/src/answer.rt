// The answer of an outcome.
ghost use Rattle.std.specs.Prelude.{◌≡◌, ◌≤◌};
ghost use Rattle.laws.specs.Terms.{proved_by_place};
ghost use Rattle.calls.specs.Answers.{asked_of, proved_of, check_of};
ghost use Rattle.queries.specs.Problem.{answer_of_verdict};
ghost use Rattle.checker.specs.Results.{proved_by};

use calls::answers::{CheckAnswer, accepted_check};
use calls::options::first_query;
use queries::problem::{Outcome, Verdict};

// Through which cycle a give-up has proved outputs equal: past query 1 through its depth, in query 1 through the depth before it, and in the first query asked
// nothing.
fn proved_by_place(earliest: bool, depth: u32, query: u32) -> Option<u32>
    ensures { proved_of result ≡ proved_by_place earliest depth query }
{
    let first = first_query(earliest);
    if query > 1 {
        return Some(depth);
    }
    if depth > 1 {
        return Some(depth - 1);
    }
    if query > first {
        return Some(0);
    }
    None
}

// The status of the verdict: 0 Equivalent, 1 NotEquivalent, 2 Inconclusive, 3 GaveUp; the query that learned most; and what is proved, by the mode asked for.
pub fn answered(outcome: Outcome, earliest: bool) -> CheckAnswer
    requires { outcome.most.learned ≤ 262144 }
    ensures { check_of result ≡ answer_of_verdict outcome.verdict (asked_of outcome.most) (proved_by earliest outcome.verdict) }
{
    let verdict = outcome.verdict;
    let most = outcome.most;
    match verdict {
        Verdict::Equivalent(depth) => accepted_check(0, depth, 0, 0, most, None),
        Verdict::NotEquivalent(depth, mismatch) => {
            accepted_check(1, depth, mismatch, 0, most, None)
        }
        Verdict::Inconclusive(depth) => accepted_check(2, depth, 0, 0, most, None),
        Verdict::GaveUp(depth, query) => {
            let proved = proved_by_place(earliest, depth, query);
            accepted_check(3, depth, 0, query, most, proved)
        }
    }
}
