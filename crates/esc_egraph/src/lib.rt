//! The nodes of ground terms, in classes that are closed under congruence, as the merges made them.
#![tactic(auto)]

mod graph;
mod key;
mod laws;
mod pairs;
mod parts;
mod record;
mod state;
mod step;

pub use esc_nodes::{Top, term_laws};
pub use esc_union::{Node, merge_laws};
pub use graph::EGraph;
pub use laws::class_laws;
pub use record::{CarriesNodes, EgraphRec};
pub use state::State;
