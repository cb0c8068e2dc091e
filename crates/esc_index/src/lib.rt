//! Nodes by number, of which the last that was added is found first.
#![tactic(auto)]

mod index;
mod threads;

pub use index::Index;
