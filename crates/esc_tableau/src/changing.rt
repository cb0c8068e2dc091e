//! Unknowns are made, dropped and restricted.
ghost use Rattle.std.specs.Prelude.{◌≡◌, ◌≢◌, ◌↔◌, ℕ, ◌-◌, ◌++◌, ◌<◌, length, All, IsOk, IfOk, OnOk, OnErr, vec_len, vec_capacity};
ghost use Rattle.esc_tableau.specs.Changes.{Sum, sum, start_sum, plus_part, plus_parts, PartFits, PartsFit, OwnerFits, plus_owner, SumEnds, RowEnds, with_column, without_row, marked, with_mark};
ghost use Rattle.esc_tableau.specs.Grid.{table_of};
ghost use Rattle.esc_tableau.specs.Listed.{tabled, restricted_in};
ghost use Rattle.esc_tableau.specs.Table.{IsTable, OwnsRow, size, row_of, place_of};

use crate::grid::Grid;
use crate::index::Place;
use crate::owner::Owner;
use crate::{FracLists, Fracs, RowStop, Rows, Unknown, Unknowns};
use esc_frac::{Frac, Spill};
use esc_rows::{add_multiple, reserve_entries, step, widen};
use sqlite_items::Items;
use std::alloc::{AllocError, Global};

/// An unknown and the fraction of it that goes into a sum.
#[derive(Clone, Copy)]
pub struct Part {
    pub unknown: Unknown,
    pub factor: Frac,
}

/// The parts of a sum.
pub type Parts = Items<Part>;

/// The entries and the constant of a row that is being made.
#[derive(Drop)]
struct Draft {
    entries: Vec<Frac>,
    constant: Frac,
}

impl Grid {
    /// Makes an unknown that owns a column.
    pub fn add_column(&mut self) -> Result<Unknown, AllocError>
        requires { IsTable (table_of self.old) }
        ensures unknown { IfOk result (λ u. u ≡ size (table_of self.old)) }
        ensures ok { OnOk result (table_of self.new ≡ with_column (table_of self.old)) }
        ensures err { OnErr result (table_of self.new ≡ table_of self.old) }
    {
        let unknown = Unknown::numbered(self.count());
        self.reserve_index()?;
        self.columns.reserve(1)?;
        reserve_entries(&mut self.entries)?;
        widen(&mut self.entries);
        let column = self.columns.len();
        self.columns.push_reserved(Owner {
            unknown,
            restricted: false,
        });
        self.index.note(unknown, Place::Column(column));
        Ok(unknown)
    }

    /// Makes an unknown that owns the row of this sum.
    pub fn add_row(
        &mut self,
        parts: &[Part],
        constant: Frac,
        alloc: Global,
    ) -> Result<Unknown, RowStop>
        requires table { IsTable (table_of self.old) }
        requires parts { All (λ part. part.unknown < size (table_of self.old)) parts.now }
        ensures { RowEnds (table_of self.old) (table_of self.new) parts.now constant result }
    {
        let unknown = Unknown::numbered(self.count());
        let draft = self.summed(parts, constant, alloc)?;
        if self.reserve_row().is_err() {
            return Err(RowStop::Memory);
        }
        let Draft { entries, constant } = draft;
        let row = self.owners.len();
        self.owners.push_reserved(Owner {
            unknown,
            restricted: false,
        });
        self.index.note(unknown, Place::Row(row));
        self.entries.push_reserved(entries);
        self.constants.push_reserved(constant);
        Ok(unknown)
    }

    // Makes room for one more row.
    fn reserve_row(&mut self) -> Result<(), AllocError>
        ensures same { table_of self.new ≡ table_of self.old }
        ensures owners { OnOk result (vec_len self.new.owners < vec_capacity self.new.owners) }
        ensures entries { OnOk result (vec_len self.new.entries < vec_capacity self.new.entries) }
        ensures constants { OnOk result (vec_len self.new.constants
            < vec_capacity self.new.constants) }
    {
        self.reserve_index()?;
        self.owners.reserve(1)?;
        self.entries.reserve(1)?;
        self.constants.reserve(1)?;
        Ok(())
    }

    // The row of the sum.
    fn summed(&self, parts: &[Part], constant: Frac, alloc: Global) -> Result<Draft, RowStop>
        requires table { IsTable (table_of self.now) }
        requires parts { All (λ part. part.unknown < size (table_of self.now)) parts.now }
        ensures { SumEnds (table_of self.now) parts.now constant result }
    {
        let mut entries = Vec::new(alloc);
        if entries.resize(self.columns.len(), Frac::whole(0)).is_err() {
            return Err(RowStop::Memory);
        }
        match self.add_parts(&mut entries, constant, parts) {
            Ok(constant) => Ok(Draft { entries, constant }),
            Err(Spill) => Err(RowStop::Spill),
        }
    }

    // Adds the parts to the entries and to the constant, which is the answer.
    fn add_parts(&self, entries: &mut [Frac], held: Frac, parts: &[Part]) -> Result<Frac, Spill>
        requires table { IsTable (table_of self.now) }
        requires parts { All (λ part. part.unknown < size (table_of self.now)) parts.now }
        requires lengths { length entries.old ≡ length self.now.columns.items }
        ensures fits { IsOk result ↔ PartsFit (table_of self.now) (sum entries.old held) parts.now }
        ensures ok { IfOk result (λ k. sum entries.new k
            ≡ plus_parts (table_of self.now) (sum entries.old held) parts.now) }
    {
        let mut total = held;
        for (place, part) in parts.iter().enumerate() {
            total = self.add_part(entries, total, *part)?;
        }
        Ok(total)
    }

    // Adds a part to the entries and to the constant, which is the answer.
    fn add_part(&self, entries: &mut [Frac], held: Frac, part: Part) -> Result<Frac, Spill>
        requires table { IsTable (table_of self.now) }
        requires unknown { part.unknown < size (table_of self.now) }
        requires lengths { length entries.old ≡ length self.now.columns.items }
        ensures fits { IsOk result ↔ PartFits (table_of self.now) (sum entries.old held) part }
        ensures ok { IfOk result (λ k. sum entries.new k
            ≡ plus_part (table_of self.now) (sum entries.old held) part) }
    {
        let column = self.column_place(part.unknown);
        if column < self.columns.len() {
            entries[column] = Frac::add(entries[column], part.factor)?;
            return Ok(held);
        }
        let row = self.row_place(part.unknown);
        self.add_owner(entries, held, part.factor, row)
    }

    // Adds the multiple of a row.
    fn add_owner(
        &self,
        entries: &mut [Frac],
        held: Frac,
        factor: Frac,
        row: usize,
    ) -> Result<Frac, Spill>
        requires table { IsTable (table_of self.now) }
        requires row { row < length self.now.owners.items }
        requires lengths { length entries.old ≡ length self.now.columns.items }
        ensures fits { IsOk result ↔ OwnerFits (table_of self.now) (sum entries.old held)
            factor row }
        ensures ok { IfOk result (λ k. sum entries.new k
            ≡ plus_owner (table_of self.now) (sum entries.old held) factor row) }
    {
        add_multiple(factor, entries, &self.entries[row])?;
        step(held, factor, self.constants[row])
    }

    /// Drops the newest unknown, which owns a row.
    pub fn drop_last(&mut self)
        requires table { IsTable (table_of self.old) }
        requires row { OwnsRow (table_of self.old) (size (table_of self.old) - 1) }
        ensures { table_of self.new ≡ without_row (table_of self.old)
            (row_of (table_of self.old) (size (table_of self.old) - 1)) }
    {
        let row = self.row_place(Unknown::numbered(self.count() - 1));
        let _owner = self.owners.remove(row);
        let _entries = self.entries.remove(row);
        let _constant = self.constants.remove(row);
        self.index.remove_row(row);
    }

    /// A copy of the rows.
    pub fn rows(&self, alloc: Global) -> Result<Rows, AllocError>
        requires { IsTable (table_of self.now) }
        ensures restricted { IfOk result (λ rows. rows.restricted
            ≡ restricted_in (self.now.owners.items ++ self.now.columns.items)) }
        ensures rows { IfOk result (λ rows. tabled rows ≡ table_of self.now) }
    {
        let mut restricted = Unknowns::new(alloc);
        restricted.push_restricted(&self.owners)?;
        restricted.push_restricted(&self.columns)?;
        let owners = Unknowns::of_owners(alloc, &self.owners)?;
        let columns = Unknowns::of_owners(alloc, &self.columns)?;
        let entries = FracLists::of_slice(alloc, &self.entries)?;
        let constants = Fracs::of_slice(alloc, &self.constants)?;
        Ok(Rows {
            owners,
            columns,
            entries,
            constants,
            restricted,
        })
    }

    /// Sets whether the unknown is to be at least 0.
    pub fn mark(&mut self, unknown: Unknown, restricted: bool)
        requires table { IsTable (table_of self.old) }
        ensures { table_of self.new ≡ with_mark (table_of self.old) unknown restricted }
    {
        let row = self.row_place(unknown);
        let column = self.column_place(unknown);
        mark_at(&mut self.owners, row, unknown, restricted);
        mark_at(&mut self.columns, column, unknown, restricted);
    }
}

// Marks the unknown at its place, where it has one.
fn mark_at(owners: &mut [Owner], place: usize, unknown: Unknown, restricted: bool)
    ensures { owners.new ≡ marked owners.old unknown restricted place }
{
    if place < owners.len() {
        owners[place] = Owner {
            unknown,
            restricted,
        };
    }
}
