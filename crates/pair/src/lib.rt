// A pair of designs: both records read, and the checks of two accepted designs, refusals 18 to 22.
#![tactic(auto)]

pub mod accepted;
pub mod checks;
pub mod reading;
