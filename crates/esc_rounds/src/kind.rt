//! Kinds of facts.

/// The kind of a fact, with the place of its quantified formula.
#[derive(Clone, Copy, PartialEq, Eq)]
pub enum Kind {
    Witness(u64),
    Write,
    Read,
    Instance(u64),
}
