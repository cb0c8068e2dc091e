//! A tableau whose sample is within the restrictions, with calls that refuse what it has no
//! unknown for.

ghost use Rattle.std.specs.Prelude.{◌<◌, ◌↔◌, All, IsTrue};
ghost use Rattle.esc_tableau.specs.Table.{IsWithin, sample, size};

use esc_frac::{Frac, Sign};
use esc_tableau::{Jam, Parts, Peak, Rows, Tableau, Unknown};
use std::alloc::{AllocError, Global};

/// A tableau whose sample is within the restrictions.
#[derive(Drop)]
pub struct Feasible {
    tableau: Tableau,
    ghost within: { IsWithin tableau (sample tableau) },
}

impl Feasible {
    pub fn new(alloc: Global) -> Feasible {
        Feasible {
            tableau: Tableau::new(alloc),
        }
    }

    pub fn count(&self) -> usize {
        self.tableau.count()
    }

    fn has(&self, unknown: Unknown) -> bool
        ensures { IsTrue result ↔ (unknown < size self.now.tableau) }
    {
        unknown.number() < self.tableau.count()
    }

    fn has_all(&self, parts: &Parts) -> bool
        ensures { IsTrue result ↔ All (λ part. part.unknown < size self.now.tableau) parts.now }
    {
        let count = self.tableau.count();
        parts
            .as_slice()
            .iter()
            .all(|part| part.unknown.number() < count)
    }

    pub fn column(&mut self) -> Result<Unknown, AllocError> {
        self.tableau.add_column()
    }

    /// Makes a row.
    pub fn row(&mut self, parts: &Parts, constant: Frac) -> Option<Unknown> {
        if !self.has_all(parts) {
            return None;
        }
        self.tableau.add_row(parts, constant).ok()
    }

    /// Makes a row and drops it. Whether it was made.
    pub fn trial(&mut self, parts: &Parts, constant: Frac) -> bool {
        if !self.has_all(parts) {
            return false;
        }
        match self.tableau.add_row(parts, constant) {
            Ok(_) => {
                self.tableau.drop_last();
                true
            }
            Err(_) => false,
        }
    }

    /// Restricts the unknown where its value is not negative. Whether it did.
    pub fn restrict(&mut self, unknown: Unknown) -> bool {
        if !self.has(unknown) {
            return false;
        }
        match self.tableau.value(unknown).sign() {
            Sign::Negative => false,
            _ => {
                self.tableau.restrict(unknown);
                true
            }
        }
    }

    pub fn maximise(&mut self, unknown: Unknown, limit: u64) -> Option<Result<Peak, Jam>> {
        if !self.has(unknown) {
            return None;
        }
        Some(self.tableau.maximise(unknown, limit))
    }

    pub fn value(&self, unknown: Unknown) -> Frac {
        self.tableau.value(unknown)
    }

    pub fn rows(&self) -> Result<Rows, AllocError> {
        self.tableau.rows()
    }

    /// Puts a copy of the rows in their place.
    pub fn refill(&mut self, alloc: Global) -> Result<(), AllocError> {
        let rows = self.tableau.rows()?;
        let copy = rows.copy(alloc)?;
        self.tableau.put(copy);
        Ok(())
    }
}
