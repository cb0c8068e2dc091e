//! The whole program as one call: commands are read from a source, and their answers are written to
//! a sink.
#![tactic(auto)]

mod desk;
mod input;
mod laws;
mod status;
mod top;

pub use laws::run_laws;
pub use status::Status;
pub use top::run;
