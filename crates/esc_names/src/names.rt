//! The names of a file and their numbers.

ghost use Rattle.std.specs.Prelude.{◌≡◌, [], Some, IfOk, OnOk, OnErr, slice_get, unwrap_or};
ghost use Rattle.esc_names.specs.Numbering.{IsNumbered, first_names};
ghost use Rattle.esc_names.specs.Rows.{HasDistinctRows};

use esc_term::Sym;
use indexmap::IndexSet;
use std::alloc::{AllocError, Global};
use std::marker::Model;

/// The names of a file, each once, in the order of their first use. A name's number is its place.
#[derive(Drop)]
pub struct Names {
    alloc: Global,
    spellings: IndexSet<Vec<u8>>,
}

impl Model for Names {
    ghost use Rattle.std.specs.Prelude.{ℕ, List, map};
    ghost use Rattle.esc_names.specs.Rows.{HasDistinctRows};

    ghost Value = { List (List ℕ) };

    ghost view = { λ names. map (λ key. key.items) names.spellings.keys };

    ghost invariant = { λ names. HasDistinctRows (map (λ key. key.items) names.spellings.keys) };
}

impl Names {
    /// A table without names, which takes no memory.
    pub fn empty(alloc: Global) -> Names
        ensures { result ≡ [] }
    {
        Names {
            alloc,
            spellings: IndexSet::new(alloc),
        }
    }

    /// The table of the names that are always there.
    pub fn new(alloc: Global) -> Result<Names, AllocError>
        ensures { IfOk result (λ names. names ≡ first_names) }
    {
        let mut names = Names::empty(alloc);
        names.number(b"@true")?;
        names.number(b"select")?;
        names.number(b"store")?;
        Ok(names)
    }

    /// The number of a name, which gets the next number where it has none.
    ///
    /// Where memory is wanting, the table is as it was.
    pub fn number(&mut self, spelling: &[u8]) -> Result<Sym, AllocError>
        ensures named { IfOk result (λ sym. slice_get self.new sym.0 ≡ Some spelling.now) }
        ensures grown { OnOk result (IsNumbered self.old spelling.now self.new) }
        ensures distinct { HasDistinctRows self.new }
        ensures err { OnErr result (self.new ≡ self.old) }
    {
        match self.spellings.get_index_of(spelling) {
            Some(place) => Ok(Sym(place as u64)),
            None => {
                let key = Vec::from_slice(self.alloc, spelling)?;
                let (place, _) = self.spellings.insert_full(key)?;
                Ok(Sym(place as u64))
            }
        }
    }

    /// No two names are spelled alike. The method states it, and does nothing.
    pub fn rows_differ(&self)
        ensures { HasDistinctRows self.now }
    {
        let _ = &self.spellings;
    }

    /// How the name is spelled: empty where the number is no name's.
    pub fn spelling(&self, sym: Sym) -> &[u8]
        ensures { result.now ≡ unwrap_or (slice_get self.now sym.0) [] }
    {
        match self.spellings.get_index(sym.0 as usize) {
            Some(key) => key.as_slice(),
            None => &[],
        }
    }
}
