//! Refinement of a branch by its clauses.
#![tactic(auto)]

mod refining;
mod thinning;

pub use refining::{next_split, refine};
