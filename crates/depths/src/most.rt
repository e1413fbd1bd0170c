// Of the queries asked so far the one that learned most: a query more is that one where it learned more than all before it.
ghost use Rattle.std.specs.Prelude.{◌≡◌};
ghost use Rattle.model.specs.Equivalence.{larger_learned};
ghost use Rattle.calls.specs.Answers.{asked_of};
ghost use Rattle.depths.specs.Most.{total_of};

use calls::answers::Asked;
use sat::state::Answer;

// The total of learned literals of an answer, whatever it is.
fn total(answer: Answer) -> usize
    ensures { result ≡ total_of answer }
{
    match answer {
        Answer::Model(learned) => learned,
        Answer::NoModel(learned) => learned,
        Answer::GaveUp(learned) => learned,
    }
}

// The most learned so far, with an answered query more: where the totals are equal the earlier one stays.
pub fn counted(most: Asked, depth: u32, query: u32, answer: Answer) -> Asked
    ensures { asked_of result ≡ larger_learned (asked_of most) (record { depth = depth; query = query; learned = total_of answer }) }
{
    let learned = total(answer);
    if most.learned < learned {
        Asked {
            depth,
            query,
            learned,
        }
    } else {
        most
    }
}
