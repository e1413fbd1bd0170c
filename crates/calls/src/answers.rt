// What the calls answer, as C has it.
ghost use Rattle.std.specs.Prelude.{◌≡◌, ◌≤◌};
ghost use Rattle.model.specs.Answers.{accepted_answer};
ghost use Rattle.model.specs.Check.{refused_check, check_answer};
ghost use Rattle.model.specs.Replay.{refused_replay};
ghost use Rattle.calls.specs.Answers.{refusal_of, replay_of, asked_of, proved_of, check_of};
ghost use Rattle.calls.specs.Causes.{numbers_of};
ghost use Rattle.calls.specs.Faults.{refusal};

use crate::refusal::Refusal;

// What a read answers: 0 or the refusal's number, the side, which is 0, and the place.
#[repr(C)]
#[derive(Clone, Copy)]
pub struct ReadAnswer {
    pub number: u32,
    pub side: u32,
    pub place: u32,
}

// What a replay answers: 0 or the refusal's number, the side and the place; and yes or no, which is no where it is refused.
#[repr(C)]
#[derive(Clone, Copy)]
pub struct ReplayAnswer {
    pub number: u32,
    pub side: u32,
    pub place: u32,
    pub yes: bool,
}

// A query that a check asked: its depth, its number, and its total of learned literals.
#[derive(Clone, Copy)]
pub struct Asked {
    pub depth: u32,
    pub query: u32,
    pub learned: usize,
}

// What a check answers: 0 or the refusal's number, the side and the place; of an accepted check the status (0 Equivalent, 1 NotEquivalent,
// 2 Inconclusive, 3 GaveUp), the depth, for NotEquivalent the first mismatching cycle and for GaveUp the query, and of the queries asked the
// largest total of learned literals, with depth and number of the first that has it; for GaveUp also whether outputs are proved equal through a
// cycle, and through which. Unused numbers are 0.
#[repr(C)]
#[derive(Clone, Copy)]
pub struct CheckAnswer {
    pub number: u32,
    pub side: u32,
    pub place: u32,
    pub status: u32,
    pub depth: u32,
    pub mismatch: u32,
    pub query: u32,
    pub learned: u32,
    pub learned_depth: u32,
    pub learned_query: u32,
    pub equal: bool,
    pub through: u32,
}

// A read that a refusal ends.
impl From<Refusal> for ReadAnswer {
    ghost from_gives = { λ refusal answer. refusal_of answer ≡ numbers_of refusal };

    #[tactic(auto, unfolding(crate::specs::Answers::refusal_of, crate::specs::Faults::refusal))]
    fn from(refusal: Refusal) -> ReadAnswer {
        ReadAnswer {
            number: refusal.cause.number(),
            side: refusal.side.number(),
            place: refusal.place,
        }
    }
}

// A refused replay.
pub fn refused_replay(number: u32, side: u32, place: u32) -> ReplayAnswer
    ensures { replay_of result ≡ refused_replay (refusal number side place) }
{
    ReplayAnswer {
        number,
        side,
        place,
        yes: false,
    }
}

// A replay that a refusal ends.
impl From<Refusal> for ReplayAnswer {
    ghost from_gives = { λ refusal answer. replay_of answer ≡ refused_replay (numbers_of refusal) };

    fn from(refusal: Refusal) -> ReplayAnswer {
        refused_replay(refusal.cause.number(), refusal.side.number(), refusal.place)
    }
}

// A refused check.
pub fn refused_check(number: u32, side: u32, place: u32) -> CheckAnswer
    ensures { check_of result ≡ check_answer (refused_check (refusal number side place)) }
{
    CheckAnswer {
        number,
        side,
        place,
        status: 0,
        depth: 0,
        mismatch: 0,
        query: 0,
        learned: 0,
        learned_depth: 0,
        learned_query: 0,
        equal: false,
        through: 0,
    }
}

// A check that a refusal ends.
impl From<Refusal> for CheckAnswer {
    ghost from_gives = { λ refusal answer. check_of answer ≡ check_answer (refused_check (numbers_of refusal)) };

    fn from(refusal: Refusal) -> CheckAnswer {
        refused_check(refusal.cause.number(), refusal.side.number(), refusal.place)
    }
}

// An accepted check, of whose queries `most` learned most; `proved` is the cycle through which it has proved the outputs equal.
pub fn accepted_check(
    status: u32,
    depth: u32,
    mismatch: u32,
    query: u32,
    most: Asked,
    proved: Option<u32>,
) -> CheckAnswer
    requires { most.learned ≤ 262144 }
    ensures { check_of result ≡ accepted_answer status depth mismatch query (asked_of most) (proved_of proved) }
{
    CheckAnswer {
        number: 0,
        side: 0,
        place: 0,
        status,
        depth,
        mismatch,
        query,
        learned: most.learned as u32,
        learned_depth: most.depth,
        learned_query: most.query,
        equal: proved.is_some(),
        through: proved.unwrap_or(0),
    }
}
