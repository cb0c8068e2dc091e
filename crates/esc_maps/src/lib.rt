//! Where the facts about maps apply, and which node stands for a class.
#![tactic(auto)]

mod chosen;
mod map_match;
mod reads;
mod writes;

pub use chosen::standing_nodes;
pub use map_match::{MapMatch, MapMatches, map_facts};
