// The types of this crate's arguments and answers.
use assignment::state::Activity;
use literals::Literal;

// The numbers of an analysis that are not in lent words: the activity, how many literals are learned after the first place, how many
// seen variables of the current level are open, and the mark of a seen variable.
#[derive(Clone, Copy)]
pub struct Analysis {
    pub activity: Activity,
    pub learned: usize,
    pub open_at_level: usize,
    pub stamp: u32,
}

// The answer of `analyze`: the analysis, and the pivot whose negation is learned first.
#[derive(Clone, Copy)]
pub struct Analyzed {
    pub analysis: Analysis,
    pub pivot: Literal,
}

// Where the literals of a clause lie in the pool: from `start` up to `end`.
#[derive(Clone, Copy)]
pub struct Bounds {
    pub start: usize,
    pub end: usize,
}
