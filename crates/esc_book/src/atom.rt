//! Atoms by their nodes.

use esc_egraph::Node;

/// What an atom says.
#[derive(Clone, Copy)]
pub enum Atom {
    /// The terms of the two nodes are equal.
    Equal(Node, Node),
    /// The term of the first is less than that of the second.
    Less(Node, Node),
    /// The terms at any two places of a list differ.
    Distinct,
    /// What a quantifier says.
    Quantified,
}
