//! What takes changes of a book back.

/// What takes one change of a book back.
#[derive(Clone, Copy)]
pub enum BookRec {
    /// The newest fact became live.
    Live,
}
