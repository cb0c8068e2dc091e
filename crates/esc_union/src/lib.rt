//! Classes of nodes that are merged two at a time, and parted again by taking the last merge back.
#![tactic(auto)]

mod bits;
mod laws;
mod lists;
mod node;
mod partition;

pub use bits::narrow;
pub use laws::merge_laws;
pub use node::Node;
pub use partition::Partition;
