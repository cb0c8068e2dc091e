//! An unknown at 0 gives up its row.
ghost use Rattle.std.specs.Prelude.{◌≡◌, ◌≢◌, ℕ, ◌<◌, length, pos, IfSome, IsTrue};
ghost use Rattle.esc_tableau.specs.Grid.{table_of};
ghost use Rattle.esc_tableau.specs.Table.{IsTable, SameSystem, entry, sample};

use crate::Unknown;
use crate::grid::Grid;
use std::alloc::Global;

impl Grid {
    /// Lets the unknown change places with a free one, where it owns a row and stands at 0.
    pub fn settle(&mut self, unknown: Unknown, alloc: Global)
        requires { IsTable (table_of self.old) }
        ensures table { IsTable (table_of self.new) }
        ensures same { SameSystem (table_of self.old) (table_of self.new) }
        ensures values { (u : ℕ) → sample (table_of self.new) u ≡ sample (table_of self.old) u }
    {
        let row = self.row_place(unknown);
        if row < self.owners.len() {
            self.settle_row(row, alloc);
        }
    }

    // The same for the owner of the row.
    fn settle_row(&mut self, row: usize, alloc: Global)
        requires table { IsTable (table_of self.old) }
        requires row { row < length self.old.owners.items }
        ensures table { IsTable (table_of self.new) }
        ensures same { SameSystem (table_of self.old) (table_of self.new) }
        ensures values { (u : ℕ) → sample (table_of self.new) u ≡ sample (table_of self.old) u }
    {
        if !self.constants[row].is_zero() {
            return;
        }
        let Some(column) = self.free_column(row) else {
            return;
        };
        // a pivot that does not fit is not made
        let _ = self.pivot(row, column, alloc);
    }

    // The first column that is not restricted and has an entry in the row.
    fn free_column(&self, row: usize) -> Option<usize>
        requires table { IsTable (table_of self.now) }
        requires row { row < length self.now.owners.items }
        ensures inside { IfSome result (λ c. c < length self.now.columns.items) }
        ensures nonzero { IfSome result (λ c. (entry (table_of self.now) row c).num ≢ pos 0) }
    {
        'columns: for column in 0..self.columns.len() {
            if self.is_free_in(row, column) {
                return Some(column);
            }
        }
        None
    }

    // Whether the column is one.
    fn is_free_in(&self, row: usize, column: usize) -> bool
        requires table { IsTable (table_of self.now) }
        requires row { row < length self.now.owners.items }
        requires column { column < length self.now.columns.items }
        ensures { IsTrue result → (entry (table_of self.now) row column).num ≢ pos 0 }
    {
        if self.columns[column].restricted {
            return false;
        }
        !self.entry(row, column).is_zero()
    }
}
