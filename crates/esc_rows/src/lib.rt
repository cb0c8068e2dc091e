//! Rows of fractions in solved form: an equation that gives its owner as a sum of multiples of the
//! columns' unknowns and a constant, and the arithmetic of a pivot on them.
#![tactic(auto)]

mod eliminating;
mod pivoting;
mod solving;
mod steps;
mod widening;

pub use pivoting::{try_pivot, write_pivot};
pub use steps::{add_multiple, is_zero, step};
pub use widening::{reserve_entries, widen};
