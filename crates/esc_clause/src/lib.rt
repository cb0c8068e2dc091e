//! Clauses over the occurrences of facts, what is left of them, and the decisions.
#![tactic(auto)]

mod clauses;
mod decision;
mod decisions;
mod judge;
mod kept;
mod laws;
mod member;
mod occurrence;
mod record;
mod truth;

pub use clauses::Clauses;
pub use decision::Decision;
pub use judge::Judge;
pub use laws::expansion_laws;
pub use member::Member;
pub use occurrence::{Occurrence, Occurrences};
pub use record::ClauseRec;
pub use truth::{Refined, Truth};
