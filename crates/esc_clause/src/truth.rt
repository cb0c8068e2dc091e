//! What is known of an occurrence, and of clauses.

ghost use Rattle.std.specs.Prelude.{◌≡◌, IsTrue, ◌↔◌};
ghost use Rattle.esc_clause.specs.PassesInside.{with_item};
ghost use Rattle.esc_clause.specs.Refinement.{is_yes, is_no};
ghost use Rattle.esc_clause.specs.declared.truth.Refined.TheVariants as refined_as;

use crate::occurrence::Occurrence;

/// Whether a subformula has its sign.
#[derive(Clone, Copy, Debug, PartialEq, Eq)]
pub enum Truth {
    Yes,
    No,
    Open,
}

impl Truth {
    pub(crate) fn is_yes(self) -> bool
        ensures { result ≡ is_yes self }
    {
        match self {
            Truth::Yes => true,
            _ => false,
        }
    }

    pub(crate) fn is_no(self) -> bool
        ensures { result ≡ is_no self }
    {
        match self {
            Truth::No => true,
            _ => false,
        }
    }
}

/// What clauses come to.
#[derive(Clone, Copy, Debug, PartialEq, Eq)]
pub enum Refined {
    /// A clause that is not satisfied has this item alone left.
    Unit(Occurrence),
    /// A clause that is not satisfied has no item left.
    Empty,
    Quiet,
}

impl Refined {
    /// What a clause comes to with one more item that does not fail.
    pub(crate) fn with(self, item: Occurrence) -> Refined
        ensures { result ≡ with_item self item }
    {
        match self {
            Refined::Empty => Refined::Unit(item),
            _ => Refined::Quiet,
        }
    }

    pub(crate) fn is_empty(self) -> bool
        ensures { IsTrue result ↔ (self ≡ refined_as.Empty) }
    {
        match self {
            Refined::Empty => true,
            _ => false,
        }
    }
}
