// The recorded list of calls: what each form of line asks for and has as its answer, what can be wrong with it, and the lines held and counted.
#![tactic(auto)]

pub mod check_line;
pub mod held;
pub mod lent;
pub mod outcome;
pub mod pair;
pub mod read_line;
pub mod refusal;
pub mod replay_line;
pub mod tally;
