//! What was assumed together.

use esc_search::Level;
use esc_term::Sym;
use esc_verdict::Cause;
use sqlite_items::Items;

/// How a batch stands.
#[derive(Drop)]
pub enum Standing {
    /// Its formulas are asserted. Where the batch ends, the search goes back to the level.
    Asserted(Level),
    /// Its formulas are refuted with those before it, which showed as they were asserted.
    Closed(Level),
    /// The arithmetic stopped as they were asserted, and the search went back to before: each goal
    /// asserts them itself.
    Stopped(Cause),
    /// A batch before it does not stand asserted, so its formulas wait too.
    Behind,
}

/// A push, or a rule of a predicate.
#[derive(Drop)]
pub struct Batch {
    /// How many formulas were in force before it.
    pub first: usize,
    /// Of a rule, the name and the number of arguments of its predicate; a push has none.
    pub predicate: Option<(Sym, u64)>,
    pub standing: Standing,
}

pub type Batches = Items<Batch>;
