// The types of this crate's arguments and answers.

// The numbers of the assignment that are not in lent words: how many variables, counted with variable 0; how many literals the
// trail holds, and how many of them are propagated; and the decision level, which is the number of trail limits.
#[derive(Clone, Copy)]
pub struct Trail {
    pub variables: usize,
    pub length: usize,
    pub head: usize,
    pub level: usize,
}

// The search's increment of a score, the decay that divides it after a conflict, and the ceiling above which all scores are rescaled.
#[derive(Clone, Copy)]
pub struct Activity {
    pub increment: f64,
    pub decay: f64,
    pub ceiling: f64,
}
