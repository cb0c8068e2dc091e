//! Steps of a search.

use crate::outcome::Outcome;
use esc_egraph::State;

/// What a step of a search leads to.
#[derive(Drop)]
pub(crate) enum Step {
    /// The search goes on, with the branch at hand open or refuted.
    Goes(State),
    Ends(Outcome),
}
