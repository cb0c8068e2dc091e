//! How many searches came to each answer.

ghost use Rattle.std.specs.Prelude.{◌≡◌};
ghost use Rattle.esc_search.specs.Proving.{tallied};

use crate::outcome::Outcome;

/// How many calls of `prove` answered Closed, Open and Stopped. A number at the greatest stays.
#[derive(Clone, Copy)]
pub struct Tally {
    pub closed: u64,
    pub left_open: u64,
    pub stopped: u64,
}

impl Tally {
    /// Counts the answer.
    pub(crate) fn raise(&mut self, outcome: &Outcome)
        ensures { self.new ≡ tallied self.old outcome.now }
    {
        match outcome {
            Outcome::Closed => self.closed = self.closed.saturating_add(1),
            Outcome::Open => self.left_open = self.left_open.saturating_add(1),
            Outcome::Stopped(_) => self.stopped = self.stopped.saturating_add(1),
            Outcome::Memory => (),
        }
    }
}
