//! The lists of a tableau.
ghost use Rattle.esc_tableau.specs.IndexInside.{IsIndexed};

use crate::index::Index;
use crate::owner::Owner;
use esc_frac::Frac;

/// Each row has its owner, an entry for each of the columns and a constant. The index notes where
/// unknowns stand.
#[derive(Drop)]
pub struct Grid {
    pub owners: Vec<Owner>,
    pub columns: Vec<Owner>,
    pub entries: Vec<Vec<Frac>>,
    pub constants: Vec<Frac>,
    pub index: Index,
    ghost indexed: { IsIndexed owners.items columns.items index },
}
