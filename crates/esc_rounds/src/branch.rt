//! How a branch stands where a round begins.

use crate::kept::{Kept, Literal};
use esc_egraph::EGraph;

/// How a branch stands where a round begins, by its nodes.
#[derive(Clone, Copy)]
pub struct Branch<'a> {
    pub graph: &'a EGraph,
    /// How deep the first live fact lies in which the term of each node stands.
    pub depths: &'a [u64],
    /// The quantified formulas that stand in live facts.
    pub formulas: &'a [Kept],
    /// Those of them that hold or fail, in order.
    pub literals: &'a [Literal],
}
