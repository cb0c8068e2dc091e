//! The reader of formulas and commands.

ghost use Rattle.std.specs.Prelude.{◌≡◌, []};

use esc_names::Names;
use esc_read::TermReader;
use std::alloc::Global;

/// ReadsBy formulas and commands of one expression.
#[derive(Drop)]
pub struct FormReader<'e> {
    /// It has the words, the names and the variables in scope.
    pub(crate) terms: TermReader<'e>,
}

impl<'e> FormReader<'e> {
    /// A reader that takes over a table of names. No variable is in scope.
    pub(crate) fn new(alloc: Global, names: Names) -> FormReader<'e>
        ensures { result.terms ≡ record { names = names; scope = [] } }
    {
        FormReader {
            terms: TermReader::new(alloc, names),
        }
    }

    /// The table of names as it is now.
    pub(crate) fn into_names(self) -> Names
        ensures { result ≡ self.entry.terms.names }
    {
        let FormReader { terms } = self;
        terms.into_names()
    }
}
