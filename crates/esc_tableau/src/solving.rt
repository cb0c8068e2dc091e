//! The lists of a tableau, seen as they are, and where its unknowns stand.
ghost use Rattle.std.specs.Prelude.{◌≡◌, ◌≢◌, ◌↔◌, ◌<◌, length, pos, IsOk, OnOk, OnErr, IfErr};
ghost use Rattle.esc_rows.specs.Steps.{PivotFits};
ghost use Rattle.esc_tableau.specs.Table.{IsTable, SameSystem, OwnsRow, OwnsColumn, size, sample, row_of, column_of, entry, pivoted};
ghost use Rattle.esc_tableau.specs.Grid.{table_of};

use crate::grid::Grid;
use crate::index::Place;
use crate::owner::place_of;
use crate::{Step, Unknown};
use esc_frac::{Frac, Spill};
use esc_rows::{try_pivot, write_pivot};
use std::alloc::{AllocError, Global};
use std::mem;

impl Grid {
    /// How many unknowns there are.
    pub fn count(&self) -> usize
        ensures { result ≡ size (table_of self.now) }
    {
        self.owners.len() + self.columns.len()
    }

    /// The row of the unknown, and the number of rows where it owns none.
    pub fn row_place(&self, unknown: Unknown) -> usize
        requires { IsTable (table_of self.now) }
        ensures { result ≡ row_of (table_of self.now) unknown }
    {
        match self.index.place(unknown) {
            Place::Row(row) => row,
            Place::Column(_) => self.owners.len(),
            Place::Unnoted => place_of(&self.owners, unknown),
        }
    }

    /// The column of the unknown, and the number of columns where it owns none.
    pub fn column_place(&self, unknown: Unknown) -> usize
        requires { IsTable (table_of self.now) }
        ensures { result ≡ column_of (table_of self.now) unknown }
    {
        match self.index.place(unknown) {
            Place::Row(_) => self.columns.len(),
            Place::Column(column) => column,
            Place::Unnoted => place_of(&self.columns, unknown),
        }
    }

    /// Makes room in the index for one more unknown.
    pub fn reserve_index(&mut self) -> Result<(), AllocError>
        ensures { table_of self.new ≡ table_of self.old }
    {
        let count = self.count();
        let lacks_some = self.index.len() < count;
        self.index.reserve(count + 1)?;
        if lacks_some {
            self.note_all();
        }
        Ok(())
    }

    /// Notes where each unknown stands, as far as the index has room.
    pub fn note_all(&mut self)
        ensures { table_of self.new ≡ table_of self.old }
    {
        self.note_rows();
        self.note_columns();
    }

    fn note_rows(&mut self)
        ensures { table_of self.new ≡ table_of self.old }
    {
        for row in 0..self.owners.len() {
            let unknown = self.owners[row].unknown;
            self.index.note(unknown, Place::Row(row));
        }
    }

    fn note_columns(&mut self)
        ensures { table_of self.new ≡ table_of self.old }
    {
        for column in 0..self.columns.len() {
            let unknown = self.columns[column].unknown;
            self.index.note(unknown, Place::Column(column));
        }
    }

    /// The unknown's value in the sample.
    pub fn value(&self, unknown: Unknown) -> Frac
        requires { IsTable (table_of self.now) }
        ensures { result ≡ sample (table_of self.now) unknown }
    {
        let row = self.row_place(unknown);
        if row < self.owners.len() {
            self.constants[row]
        } else {
            Frac::whole(0)
        }
    }

    /// The entry of a row at a column.
    pub fn entry(&self, row: usize, column: usize) -> Frac
        requires table { IsTable (table_of self.now) }
        requires row { row < length self.now.owners.items }
        requires column { column < length self.now.columns.items }
        ensures { result ≡ entry (table_of self.now) row column }
    {
        self.entries[row][column]
    }

    /// Solves a row for the unknown of a column, which becomes its owner, and takes that unknown
    /// out of the other rows. All steps are tried before the rows change.
    pub fn pivot(&mut self, row: usize, column: usize, alloc: Global) -> Result<(), Spill>
        requires table { IsTable (table_of self.old) }
        requires row { row < length self.old.owners.items }
        requires column { column < length self.old.columns.items }
        requires nonzero { (entry (table_of self.old) row column).num ≢ pos 0 }
        ensures fits { IsOk result ↔ PivotFits (table_of self.old).entries
            (table_of self.old).constants row column }
        ensures ok { OnOk result (table_of self.new ≡ pivoted (table_of self.old) row column) }
        ensures err { OnErr result (table_of self.new ≡ table_of self.old) }
        ensures table { IsTable (table_of self.new) }
        ensures same { SameSystem (table_of self.old) (table_of self.new) }
    {
        try_pivot(&self.entries, &self.constants, row, column)?;
        write_pivot(&mut self.entries, &mut self.constants, row, column, alloc);
        let leaver = self.owners[row].unknown;
        let entrant = self.columns[column].unknown;
        mem::swap(&mut self.owners[row], &mut self.columns[column]);
        self.index.note(entrant, Place::Row(row));
        self.index.note(leaver, Place::Column(column));
        Ok(())
    }

    /// The same by the unknowns: `row` owns a row, and `column` becomes its owner.
    pub fn exchange(&mut self, row: Unknown, column: Unknown, alloc: Global) -> Result<(), Step>
        requires table { IsTable (table_of self.old) }
        requires row { OwnsRow (table_of self.old) row }
        requires column { OwnsColumn (table_of self.old) column }
        requires nonzero { (entry (table_of self.old) (row_of (table_of self.old) row)
            (column_of (table_of self.old) column)).num ≢ pos 0 }
        ensures fits { IsOk result ↔ PivotFits (table_of self.old).entries
            (table_of self.old).constants (row_of (table_of self.old) row)
            (column_of (table_of self.old) column) }
        ensures ok { OnOk result (table_of self.new
            ≡ pivoted (table_of self.old) (row_of (table_of self.old) row)
            (column_of (table_of self.old) column)) }
        ensures err { OnErr result (table_of self.new ≡ table_of self.old) }
        ensures step { IfErr result (λ step. step ≡ Step.Pivot row column) }
        ensures table { IsTable (table_of self.new) }
        ensures same { SameSystem (table_of self.old) (table_of self.new) }
    {
        let place = self.row_place(row);
        let entrant = self.column_place(column);
        match self.pivot(place, entrant, alloc) {
            Ok(()) => Ok(()),
            Err(Spill) => Err(Step::Pivot { row, column }),
        }
    }
}
