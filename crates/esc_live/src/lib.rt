//! One branch of a search: facts that become live and occurrences that are decided, with the
//! literals and clauses that they come to, on one undo stack.
#![tactic(auto)]

mod asserting;
mod branch;
mod expanding;
mod laws;
mod literals;
mod record;

pub use branch::LiveBranch;
pub use laws::live_laws;
pub use record::LiveRec;
