//! The terms of a graph's nodes with their classes, and the literals that a graph and groups keep
//! apart.
#![tactic(auto)]

mod laws;

pub use laws::node_laws;
