//! What the prover answers to a command, and its text.
#![tactic(auto)]

mod found;
mod laws;
mod lines;
mod listed;
mod log;
mod put;
mod report;

pub use laws::{goal_laws, printing_laws};
pub use put::put_report;
pub use report::{Refusal, Report};
