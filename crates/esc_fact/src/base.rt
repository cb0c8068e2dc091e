//! The formulas that facts rest on.

use esc_term::{Formula, Formulas};

/// What a search begins with. Each formula of it is to be closed.
#[derive(Drop)]
pub struct Base {
    /// What is assumed, in order.
    pub background: Formulas,
    /// The negated goal, where there is a goal.
    pub negated: Option<Formula>,
}
