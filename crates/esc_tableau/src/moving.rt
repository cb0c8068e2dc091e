//! Along which columns one can move from the sample.
ghost use Rattle.std.specs.Prelude.{◌≡◌, ◌↔◌, ◌<◌, false, length, get_or, IfOk, IsTrue};
ghost use Rattle.esc_tableau.specs.Grid.{table_of};
ghost use Rattle.esc_tableau.specs.Moving.{AreMoving, Blocks, CanMove, IsFree};
ghost use Rattle.esc_tableau.specs.Table.{IsTable};

use crate::grid::Grid;
use crate::rule::{Move, falls_along};
use std::alloc::{AllocError, Global};

impl Grid {
    /// The columns that can move from the sample within the restrictions, in order.
    pub fn moving(&self, alloc: Global) -> Result<Vec<usize>, AllocError>
        requires { IsTable (table_of self.now) }
        ensures { IfOk result (λ v. AreMoving (table_of self.now) v.items) }
    {
        let mut moving = Vec::new(alloc);
        'columns: for column in 0..self.columns.len() {
            if self.can_move(column) {
                moving.push(column)?;
            }
        }
        Ok(moving)
    }

    // Whether the column's unknown can be a little above 0, or a little below.
    fn can_move(&self, column: usize) -> bool
        requires table { IsTable (table_of self.now) }
        requires column { column < length self.now.columns.items }
        ensures { IsTrue result ↔ CanMove (table_of self.now) column }
    {
        if self.is_free(Move { column, up: true }) {
            return true;
        }
        if self.columns[column].restricted {
            return false;
        }
        self.is_free(Move { column, up: false })
    }

    // Whether no row blocks the move.
    fn is_free(&self, along: Move) -> bool
        requires table { IsTable (table_of self.now) }
        requires column { along.column < length self.now.columns.items }
        ensures { IsTrue result ↔ IsFree (table_of self.now) along }
    {
        'rows: for row in 0..self.owners.len() {
            if self.blocks(along, row) {
                return false;
            }
        }
        true
    }

    // Whether the row's owner is restricted, stands at 0 and falls along the move.
    fn blocks(&self, along: Move, row: usize) -> bool
        requires table { IsTable (table_of self.now) }
        requires column { along.column < length self.now.columns.items }
        requires row { row < length self.now.owners.items }
        ensures { IsTrue result ↔ Blocks (table_of self.now) along row }
    {
        let owner = self.owners[row];
        let constant = self.constants[row];
        if !owner.restricted || !constant.is_zero() {
            return false;
        }
        falls_along(along.up, self.entry(row, along.column).sign())
    }
}
