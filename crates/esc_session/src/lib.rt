//! A session: what is assumed, batch by batch, and the one search that answers all goals.
#![tactic(auto)]

mod batch;
mod batches;
mod command;
mod defining;
mod goal;
mod laws;
mod popping;
mod pushing;
mod reporting;
mod session;

pub use batch::{Batch, Batches, Standing};
pub use laws::session_laws;
pub use session::Session;
