//! What a round begins with, made from the live facts of a branch.
#![tactic(auto)]

mod draws;
mod formulas;
mod laws;
mod literals;
mod origins;
mod survey;
mod terms;

pub use survey::{Survey, survey_of};
