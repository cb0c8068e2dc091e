//! The terms of a formula come in play.
#![tactic(auto)]

mod play;
mod walk;

pub use play::put_in_play;
