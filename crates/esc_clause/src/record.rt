//! What takes changes of clauses back.

/// What takes one change of the clauses back.
#[derive(Clone, Copy)]
pub enum ClauseRec {
    /// The last clause was added.
    Added,
    /// The item at a place of the clause at a place went from it.
    Dropped { at: usize, place: usize },
    /// The last decision was made.
    Decided,
}
