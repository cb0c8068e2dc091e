//! Counterexamples.

use esc_fact::Facts;
use esc_frac::Frac;
use esc_term::{Item, Sym, Terms};
use sqlite_items::Items;

pub type Literals = Items<Item>;

pub type Syms = Items<Sym>;

/// Terms that are equal, in the order of their first occurrence.
#[derive(Drop)]
pub struct Class {
    pub terms: Terms,
    /// The number that they stand for, where one of them is arithmetic.
    pub value: Option<Frac>,
}

pub type Classes = Items<Class>;

/// What keeps a goal from being valid: an open branch of the search.
#[derive(Drop)]
pub struct Counterexample {
    /// The facts that were asserted on the branch.
    pub facts: Facts,
    /// The literals of the branch, in the order in which they were asserted.
    pub literals: Literals,
    /// The classes of the terms in play, in the order of their first terms.
    pub classes: Classes,
    /// The names of the labels that tell what fails.
    pub labels: Syms,
}
