// The types of this crate's arguments and answers.
use assignment::state::{Activity, Trail};
use clauses::state::Store;

// The answer of `learn`: the clauses with the learned one, and the trail after backtracking.
#[derive(Clone, Copy)]
pub struct Learned {
    pub store: Store,
    pub trail: Trail,
}

// What a search holds that is in no lent word; `learned` is the total of learned literals.
#[derive(Clone, Copy)]
pub struct State {
    pub store: Store,
    pub trail: Trail,
    pub activity: Activity,
    pub learned: usize,
}

// The answer of a search with its total of learned literals: a model, whose values stand in the words; none; or it gave up at the limit.
#[derive(Clone, Copy)]
pub enum Answer {
    Model(usize),
    NoModel(usize),
    GaveUp(usize),
}
