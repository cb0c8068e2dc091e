//! What is told of a branch that was left open: its counterexample, with the classes and their
//! values, and the labels that tell why it is open.
#![tactic(auto)]

mod classes;
mod context;
mod judge;
mod labelled;
mod labelling;

pub use context::counterexample;
pub use labelling::labels;
