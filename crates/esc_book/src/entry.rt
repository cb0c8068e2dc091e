//! Entries of tables.

use crate::group::Group;
use esc_egraph::Node;
use esc_term::Formula;
use sqlite_items::{Boxed, Items};

/// The entries of one formula, an entry for each occurrence, in order; but the pairs of a
/// distinction have none.
pub type Page = Items<Entry>;

/// What a formula is, but for its parts, with nodes for terms. What would take much room stands
/// elsewhere, so that a table takes little for each occurrence.
#[derive(Drop)]
pub enum Kind {
    Constant(bool),
    Conjunction,
    Disjunction,
    Negation,
    Implication,
    Equivalence,
    Labelled,
    Equation(Node, Node),
    Order(Node, Node),
    Distinction(Boxed<Group>),
    Quantified(Boxed<Formula>),
}

/// An occurrence of a formula.
#[derive(Drop)]
pub struct Entry {
    /// The number of the subformula in the whole formula.
    pub begin: u64,
    /// The place in the table of the first entry behind those of this formula.
    pub next: usize,
    pub kind: Kind,
}
