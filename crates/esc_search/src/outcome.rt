//! What a search answers.

use esc_verdict::Cause;

/// What a search came to.
#[derive(Drop)]
pub enum Outcome {
    /// Every branch is refuted.
    Closed,
    /// The branch at hand is left open.
    Open,
    Stopped(Cause),
    /// Want of memory.
    Memory,
}
