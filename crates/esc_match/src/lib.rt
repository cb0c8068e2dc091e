//! Which nodes the triggers of quantified formulas match, up to their classes.
#![tactic(auto)]

mod candidates;
mod growing;
mod laws;
mod matching;
mod substitution;
mod wanted;
mod way;

pub use laws::match_laws;
pub use matching::{MatchList, matches};
pub use substitution::{NodeList, Substitution};
pub use wanted::{All, Wanted};
