// A cycle of both sides in the proof graph: new variables, the frames imported, outputs and named states compared.
#![tactic(auto)]

pub mod compare;
pub mod cycle;
pub mod frame;
pub mod variables;
