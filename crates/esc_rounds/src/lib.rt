//! The facts that a round adds to a branch: witnesses, facts about maps and instances.
#![tactic(auto)]

mod branch;
mod depth;
mod draw;
mod fact;
mod instances;
mod kept;
mod key;
mod kind;
mod laws;
mod listing;
mod rounding;
mod witnesses;

pub use branch::Branch;
pub use draw::{Draw, Draws};
pub use fact::fact_of;
pub use kept::{Kept, Literal};
pub use kind::Kind;
pub use laws::round_laws;
pub use rounding::round;
