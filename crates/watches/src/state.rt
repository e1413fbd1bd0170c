// The types of this crate's arguments and answers.
use assignment::state::Trail;

// The cells that were taken from a queue and are still to be visited: the first, and how many there are.
#[derive(Clone, Copy)]
pub struct Pending {
    pub cell: u32,
    pub left: usize,
}

// A propagation under way, ended without a conflict, or stopped at a clause whose literals are all false.
#[derive(Clone, Copy)]
pub enum Propagation {
    Propagating(Trail),
    Complete(Trail),
    Conflict(usize, Trail),
}
