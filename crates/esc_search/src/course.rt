//! How a search goes from branch to branch.

use crate::open_split::OpenSplits;
use esc_verdict::Starts;

/// The splits of which one side is still to come, and where the rounds of the branch at hand began.
#[derive(Drop)]
pub(crate) struct Course {
    pub(crate) waiting: OpenSplits,
    pub(crate) starts: Starts,
}
