// A decoded design lowered to its transition graph in lent words: nodes, registers and resets in record order.
#![tactic(auto)]

pub mod copy;
pub mod gates;
pub mod lowering;
pub mod nets;
pub mod registers;
pub mod resets;
pub mod walk;
