//! Branches of a search.

use esc_clause::Occurrence;
use esc_fact::Facts;
use sqlite_items::Items;

/// The root of the splits, or a side of one of them by its place in the list: the side on which its
/// occurrence has its sign, or the other.
pub type Side = Option<(u64, bool)>;

pub type Sides = Items<Side>;

/// Where the search tried both signs of an occurrence.
#[derive(Clone, Copy)]
pub struct Split {
    pub under: Side,
    pub at: Occurrence,
}

pub type Splits = Items<Split>;

/// A search as far as it has come.
#[derive(Drop)]
pub struct Branch {
    /// The facts that were used.
    pub log: Facts,
    /// Where each fact of the log was added.
    pub sides: Sides,
    pub splits: Splits,
    /// Where the search is.
    pub under: Side,
}
