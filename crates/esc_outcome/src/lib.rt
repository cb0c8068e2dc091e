//! What a search comes to: counterexamples, branches, and what is kept of a stop.
#![tactic(auto)]

mod branch;
mod counterexample;
mod keeping;
mod laws;
mod stuck;

pub use branch::{Branch, Side, Sides, Split, Splits};
pub use counterexample::{Class, Classes, Counterexample, Literals, Syms};
pub use keeping::stuck_of;
pub use laws::{branch_laws, found_laws, jam_laws, plain_laws, tree_laws};
pub use stuck::{Meaning, Meanings, Stuck, TermPairs};
