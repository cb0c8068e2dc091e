//! Commands.

use esc_term::{Formula, Formulas, Sym};

/// A command, and the place of the first byte of its expression.
#[derive(Drop)]
pub struct Command {
    pub place: u64,
    pub kind: Kind,
}

#[derive(Drop)]
pub enum Kind {
    /// A formula that is to be proved.
    Goal(Formula),
    /// Formulas that are assumed from here on.
    Push(Formulas),
    /// The end of the newest assumptions.
    Pop,
    /// A predicate with its number of arguments and the place of its name, and what it means
    /// where that is said.
    Define {
        name: Sym,
        count: u64,
        name_place: u64,
        rule: Option<Formula>,
    },
    /// Nothing is asked.
    Prompt,
}
