//! Splits of which one side is still to come.

use esc_outcome::Split;
use esc_trail::Mark;
use sqlite_items::Items;

/// A split whose first side is being searched.
#[derive(Clone, Copy)]
pub(crate) struct OpenSplit {
    /// How the branch was where the split was made.
    pub(crate) mark: Mark,
    /// The place of the split among all splits.
    pub(crate) number: u64,
    /// How many rounds the branch had had there.
    pub(crate) rounds: u64,
    pub(crate) split: Split,
}

pub(crate) type OpenSplits = Items<OpenSplit>;
