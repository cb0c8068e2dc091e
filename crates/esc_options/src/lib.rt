//! What is asked of a run: how far its searches go, and what is printed of them.
#![tactic(auto)]

mod options;

pub use options::{Limits, Options, Show};
