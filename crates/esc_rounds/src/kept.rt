//! What is kept of the quantified formulas of a branch.

use esc_term::Terms;
use esc_trigger::Triggers;

/// A quantified formula that stands in a live fact.
#[derive(Drop)]
pub struct Kept {
    /// Its number among those of the base, where it stands first in the live facts.
    pub number: u64,
    /// The terms for the variables bound around it there, the outermost first.
    pub outer: Terms,
    /// Whether it speaks of all values.
    pub universal: bool,
    /// How many variables it binds.
    pub count: u64,
    pub triggers: Triggers,
    /// How deep the first live fact lies in which it stands.
    pub depth: u64,
}

/// A quantified formula that holds or fails.
#[derive(Clone, Copy)]
pub struct Literal {
    /// Its place among the formulas that are kept.
    pub formula: u64,
    pub holds: bool,
}
