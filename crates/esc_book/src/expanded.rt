//! What occurrences expand to.

use esc_clause::{Occurrence, Occurrences};
use sqlite_items::Items;

/// What an occurrence with its sign expands to.
#[derive(Drop)]
pub enum Expanded {
    /// All of these are to hold.
    AllOf(Occurrences),
    /// Of each list one is to hold.
    OneOfEach(Items<Items<Occurrence>>),
    /// It cannot be.
    Never,
    /// It is a literal.
    Literal,
}
