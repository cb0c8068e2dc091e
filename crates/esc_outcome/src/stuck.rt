//! What the arithmetic of a branch stopped with.

use crate::counterexample::Literals;
use esc_simplex::Stop;
use esc_tableau::Unknown;
use esc_term::Term;
use sqlite_items::Items;

/// The unknown of a term.
#[derive(Drop)]
pub struct Meaning {
    pub unknown: Unknown,
    pub term: Term,
}

pub type Meanings = Items<Meaning>;

pub type TermPairs = Items<(Term, Term)>;

/// A stop of the arithmetic, with what it is read by.
#[derive(Drop)]
pub struct Stuck {
    pub jam: Stop,
    /// The unknowns of the arithmetic terms.
    pub unknowns: Meanings,
    /// The literals of the branch, in the order in which they were asserted.
    pub literals: Literals,
    /// The pairs of terms that the arithmetic was told to be equal, in order.
    pub told: TermPairs,
}
