// What the calls take and answer: options, refusals, the lent position, and the answers as C has them. One home for each, from the reader to the public library.
#![tactic(auto)]

pub mod answers;
pub mod options;
pub mod position;
pub mod refusal;
