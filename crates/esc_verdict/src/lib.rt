//! What a search with rounds comes to: why a branch stopped, and what is told of one that is left
//! open.
#![tactic(auto)]

mod cause;
mod laws;

pub use cause::{Cause, RoundsMade, Start, Starts};
pub use laws::{rounding_laws, verdict_laws};
