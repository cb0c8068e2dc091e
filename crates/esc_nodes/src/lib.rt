//! Ground terms as nodes: each term has one node, which has the nodes of its arguments.
#![tactic(auto)]

mod laws;
mod nodes;
mod table;
mod top;

pub use laws::term_laws;
pub use nodes::{Nodes, arguments};
pub use top::Top;
