//! Points to which a search can go back.

use esc_outcome::Side;
use esc_tableau::Rows;
use esc_trail::Mark;

/// A point to which a search can go back, with a copy of the rows that the tableau had there.
#[derive(Drop)]
pub struct Level {
    pub(crate) mark: Mark,
    pub(crate) rows: Rows,
    // how many formulas the branch had in its log, and how many facts, sides and splits there were
    pub(crate) formulas: usize,
    pub(crate) facts: usize,
    pub(crate) sides: usize,
    pub(crate) splits: usize,
    pub(crate) under: Side,
}
