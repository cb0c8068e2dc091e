//! The search: facts are asserted, clauses refined and split, until every branch is refuted, one is
//! left open, or a limit is met.
#![tactic(auto)]

mod adding;
mod beginning;
mod course;
mod exploring;
mod keeping;
mod laws;
mod level;
mod levels;
mod open_split;
mod outcome;
mod round;
mod rounding;
mod search;
mod spent;
mod step;
mod tally;

pub use laws::search_laws;
pub use level::Level;
pub use outcome::Outcome;
pub use search::Search;
pub use tally::Tally;
