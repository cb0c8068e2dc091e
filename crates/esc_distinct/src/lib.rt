//! Groups of nodes, of which any two at different places are to differ.
#![tactic(auto)]

mod group;
mod groups;
mod record;
mod search;

pub use groups::Groups;
pub use record::{CarriesGroups, GroupRec};
