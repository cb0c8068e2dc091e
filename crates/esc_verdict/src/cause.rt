//! Why a search stopped.

use esc_clause::Occurrence;
use esc_fact::{Fact, Facts};
use esc_outcome::{Branch, Literals, Stuck};
use sqlite_items::Items;

/// Where a round of a branch began: how many facts were live, and how many literals there were.
#[derive(Clone, Copy)]
pub struct Start {
    pub facts: u64,
    pub literals: u64,
}

pub type Starts = Items<Start>;

/// The rounds of a branch that has had as many as are allowed.
#[derive(Drop)]
pub struct RoundsMade {
    /// The facts that are live, in the order in which they became so.
    pub live: Facts,
    /// The literals, in the order in which they were asserted.
    pub literals: Literals,
    /// Where each round began.
    pub starts: Starts,
    /// The first fact of the next round.
    pub next: Fact,
}

/// Why a search stopped, with the branch on which it did.
#[derive(Drop)]
pub enum Cause {
    /// A step of the arithmetic does not fit.
    Overflow(Branch, Stuck),
    /// A maximising takes more pivots than are allowed.
    Pivots(Branch, Stuck),
    /// There are as many splits as are allowed, and this would be the next.
    Splits(Branch, Occurrence),
    /// The branch has had as many rounds as are allowed, and another would add facts.
    Rounds(Branch, RoundsMade),
    /// There are as many facts as are allowed, and this would be the next.
    Facts(Branch, Fact),
}
