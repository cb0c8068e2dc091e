//! ReadsBy commands from expressions.
#![tactic(auto)]

mod build;
mod command;
mod definition;
mod form;
mod formula;
mod laws;
mod notes;
mod read;
mod reader;

pub use command::{Command, Kind};
pub use esc_read::{FormFault, FormKind, FormStop};
pub use laws::reading_laws;
pub use read::read_command;
