//! The words of the command line, and what they ask for.
#![tactic(auto)]

mod command;
mod laws;
mod number;
mod read;
mod setting;

pub use laws::words_laws;
pub use read::{WordsStop, read_words};
pub use setting::{Flag, Setting};
