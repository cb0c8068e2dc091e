ghost use Rattle.std.specs.Prelude.{◌≡◌, IfOk};

use crate::{FracLists, Fracs, Unknowns};
use std::alloc::{AllocError, Global};

/// The rows of a tableau: the r-th is owned by the r-th of `owners`, has the r-th list of
/// `entries`, with one fraction for each of `columns`, and has the r-th constant.
#[derive(Drop)]
pub struct Rows {
    pub owners: Unknowns,
    pub columns: Unknowns,
    pub entries: FracLists,
    pub constants: Fracs,
    /// The unknowns that are to be at least 0.
    pub restricted: Unknowns,
}

impl Rows {
    /// A copy, where there is memory for it.
    pub fn copy(&self, alloc: Global) -> Result<Rows, AllocError>
        ensures { IfOk result (λ rows. rows ≡ self.now) }
    {
        Ok(Rows {
            owners: self.owners.copy(alloc)?,
            columns: self.columns.copy(alloc)?,
            entries: self.entries.copy(alloc)?,
            constants: self.constants.copy(alloc)?,
            restricted: self.restricted.copy(alloc)?,
        })
    }
}
