ghost use Rattle.std.specs.Prelude.{◌≡◌, ◌≢◌, ◌↔◌, ℕ, ◌-◌, ◌<◌, true, false, [], ◌++◌, All, length, pos, Some, Ok, Err, IsOk, OnOk, OnErr, IfOk, IfErr};
ghost use Rattle.esc_frac.specs.Rational.{zero_ℚ, ◌≤ℚ◌};
ghost use Rattle.esc_tableau.specs.Changes.{RowEnds, AddsColumn, AddsRow, DropsRow, Restricts, Frees, with_column, without_row, with_mark};
ghost use Rattle.esc_tableau.specs.Listed.{tabled, restricted_in};
ghost use Rattle.esc_rows.specs.Steps.{PivotFits};
ghost use Rattle.esc_tableau.specs.Table.{IsTable, IsSolution, IsWithin, SameSystem, OwnsRow, OwnsColumn, row_of, column_of, column, entry, pivoted, table, size, sample};
ghost use Rattle.esc_tableau.specs.Moving.{AreMoving};
ghost use Rattle.esc_tableau.specs.Rule.{next, slope};
ghost use Rattle.esc_tableau.specs.Run.{Ends, PeakHolds};

use crate::changing::Parts;
use crate::grid::Grid;
use crate::index::Index;
use crate::rule::Next;
use crate::{Jam, Peak, RowStop, Rows, Step, Unknown};
use esc_frac::Frac;
use std::alloc::{AllocError, Global};
use std::marker::Model;
use std::mem;

/// Linear equations in solved form: each row gives its owner as a sum of multiples of the columns'
/// unknowns and a constant. Each unknown owns a row or a column, and may be restricted to be at
/// least 0.
#[derive(Drop)]
pub struct Tableau {
    grid: Grid,
    alloc: Global,
}

impl Model for Tableau {
    ghost use Rattle.esc_tableau.specs.Table.{Table, coded_table, IsTable};

    ghost Value = { Table };

    ghost coded = { coded_table };

    ghost use Rattle.esc_tableau.specs.Grid.{table_of};

    ghost view = { λ t. table_of t.grid };

    ghost invariant = { λ t. IsTable (table_of t.grid) };
}

impl Tableau {
    /// No unknowns and no rows.
    pub fn new(alloc: Global) -> Tableau
        ensures empty { result ≡ table [] [] [] [] }
        ensures within { IsWithin result (sample result) }
        ensures table { IsTable result }
    {
        Tableau {
            grid: Grid {
                owners: Vec::new(alloc),
                columns: Vec::new(alloc),
                entries: Vec::new(alloc),
                constants: Vec::new(alloc),
                index: Index::new(alloc),
            },
            alloc,
        }
    }

    /// How many unknowns there are: they are the numbers below.
    pub fn count(&self) -> usize
        ensures { result ≡ size self.now }
    {
        self.grid.count()
    }

    /// The unknown's value in the sample, the solution in which each unknown that owns a column is
    /// 0.
    pub fn value(&self, unknown: Unknown) -> Frac
        ensures value { result ≡ sample self.now unknown }
        ensures solution { IsSolution self.now (sample self.now) }
        ensures columns { (c : ℕ) → c < length self.now.columns
            → sample self.now (column self.now c) ≡ zero_ℚ }
    {
        self.grid.value(unknown)
    }

    /// How fast the unknown rises with the owner of a column: the entry of its row there.
    pub fn slope(&self, unknown: Unknown, column: usize) -> Frac
        requires { column < length self.now.columns }
        ensures { result ≡ slope self.now unknown column }
    {
        self.grid.slope(unknown, column)
    }

    /// The columns whose owners can move a little from the sample within the restrictions.
    pub fn moving(&self) -> Result<Vec<usize>, AllocError>
        ensures { IfOk result (λ v. AreMoving self.now v.items) }
    {
        self.grid.moving(self.alloc)
    }

    /// Solves the row of `row` for `column`, which becomes its owner, and takes that unknown out of
    /// the other rows: the two change places. `Step` where a step does not fit: the tableau is then
    /// unchanged.
    pub fn pivot(&mut self, row: Unknown, column: Unknown) -> Result<(), Step>
        requires row { OwnsRow self.old row }
        requires column { OwnsColumn self.old column }
        requires nonzero { (entry self.old (row_of self.old row) (column_of self.old column)).num
            ≢ pos 0 }
        ensures fits { IsOk result ↔ PivotFits self.old.entries self.old.constants
            (row_of self.old row) (column_of self.old column) }
        ensures ok { OnOk result (self.new ≡ pivoted self.old (row_of self.old row)
            (column_of self.old column)) }
        ensures err { OnErr result (self.new ≡ self.old) }
        ensures step { IfErr result (λ step. step ≡ Step.Pivot row column) }
        ensures same { SameSystem self.old self.new }
        ensures table { IsTable self.new }
    {
        self.grid.exchange(row, column, self.alloc)
    }

    /// Maximises the unknown by Bland's rule, with at most `limit` pivots. `NotPositive`: its
    /// sample is its greatest value within the restrictions, and not positive. `Positive`: its
    /// sample is positive, or it grows without bound along the column of the ray. `Pivots`: the
    /// rule has one more pivot than the limit allows. `Spill`: its next step does not fit. The
    /// pivots made so far stand.
    pub fn maximise(&mut self, unknown: Unknown, limit: u64) -> Result<Peak, Jam>
        requires unknown { unknown < size self.old }
        requires within { IsWithin self.old (sample self.old) }
        ensures ends { Ends self.old self.new unknown limit result }
        ensures peak { IfOk result (PeakHolds self.new unknown) }
        ensures same { SameSystem self.old self.new }
        ensures within { IsWithin self.new (sample self.new) }
        ensures row { OwnsRow self.old unknown → OwnsRow self.new unknown }
        ensures table { IsTable self.new }
    {
        self.grid.maximise(unknown, limit, self.alloc)
    }

    /// Solves the row of an unknown for the column along which it grows without bound: it stands at
    /// 0 in the sample then. `Step` where a step does not fit: the tableau is then unchanged.
    pub fn raise(&mut self, unknown: Unknown, ray: Unknown) -> Result<(), Step>
        requires row { OwnsRow self.old unknown }
        requires ray { next self.old unknown ≡ Next.Stops (Peak.Positive (Some ray)) }
        requires within { IsWithin self.old (sample self.old) }
        ensures fits { IsOk result ↔ PivotFits self.old.entries self.old.constants
            (row_of self.old unknown) (column_of self.old ray) }
        ensures ok { OnOk result (self.new ≡ pivoted self.old (row_of self.old unknown)
            (column_of self.old ray)) }
        ensures err { OnErr result (self.new ≡ self.old) }
        ensures step { IfErr result (λ step. step ≡ Step.Pivot unknown ray) }
        ensures zero { OnOk result (sample self.new unknown ≡ zero_ℚ) }
        ensures same { SameSystem self.old self.new }
        ensures within { IsWithin self.new (sample self.new) }
        ensures table { IsTable self.new }
    {
        self.grid.exchange(unknown, ray, self.alloc)
    }

    /// Where the unknown owns a row and stands at 0 in the sample, it changes places with the owner
    /// of the first column with an entry in its row that is not restricted. The tableau stays as it
    /// is where there is none, or where a step does not fit. The sample stays in each case.
    pub fn settle(&mut self, unknown: Unknown)
        requires { IsWithin self.old (sample self.old) }
        ensures values { (u : ℕ) → sample self.new u ≡ sample self.old u }
        ensures same { SameSystem self.old self.new }
        ensures within { IsWithin self.new (sample self.new) }
        ensures table { IsTable self.new }
    {
        self.grid.settle(unknown, self.alloc);
    }

    /// Makes an unknown that owns a column: the rows say nothing of it.
    pub fn add_column(&mut self) -> Result<Unknown, AllocError>
        ensures unknown { IfOk result (λ u. u ≡ size self.old) }
        ensures ok { OnOk result (self.new ≡ with_column self.old) }
        ensures err { OnErr result (self.new ≡ self.old) }
        ensures adds { OnOk result (AddsColumn self.old self.new) }
        ensures table { IsTable self.new }
    {
        self.grid.add_column()
    }

    /// Makes an unknown that owns a row: the sum of the parts and the constant. `Spill` where a
    /// step of making the row does not fit. After a refusal the tableau is unchanged.
    pub fn add_row(&mut self, parts: &Parts, constant: Frac) -> Result<Unknown, RowStop>
        requires { All (λ part. part.unknown < size self.old) parts.now }
        ensures ends { RowEnds self.old self.new parts.now constant result }
        ensures adds { OnOk result (AddsRow self.old self.new parts.now constant) }
        ensures table { IsTable self.new }
    {
        self.grid.add_row(parts.as_slice(), constant, self.alloc)
    }

    /// Drops the newest unknown, which owns a row, with its row.
    pub fn drop_last(&mut self)
        requires { OwnsRow self.old (size self.old - 1) }
        ensures left { self.new ≡ without_row self.old (row_of self.old (size self.old - 1)) }
        ensures drops { DropsRow self.old self.new }
        ensures table { IsTable self.new }
    {
        self.grid.drop_last();
    }

    /// Restricts the unknown to be at least 0.
    pub fn restrict(&mut self, unknown: Unknown)
        requires unknown { unknown < size self.old }
        requires sample { zero_ℚ ≤ℚ sample self.old unknown }
        ensures marked { self.new ≡ with_mark self.old unknown true }
        ensures restricts { Restricts self.old self.new unknown }
        ensures table { IsTable self.new }
    {
        self.grid.mark(unknown, true);
    }

    /// Takes the unknown's restriction away, where it has one.
    pub fn free(&mut self, unknown: Unknown)
        ensures marked { self.new ≡ with_mark self.old unknown false }
        ensures frees { Frees self.old self.new unknown }
        ensures table { IsTable self.new }
    {
        self.grid.mark(unknown, false);
    }

    /// A copy of the rows, with the restricted unknowns.
    pub fn rows(&self) -> Result<Rows, AllocError>
        ensures restricted { IfOk result (λ rows. rows.restricted
            ≡ restricted_in (self.now.owners ++ self.now.columns)) }
        ensures rows { IfOk result (λ rows. tabled rows ≡ self.now) }
        ensures table { IfOk result (λ rows. IsTable (tabled rows)) }
        ensures among { IfOk result (λ rows. All (λ u. u < size (tabled rows)) rows.restricted) }
    {
        self.grid.rows(self.alloc)
    }

    /// Puts these rows and restrictions in place of its own.
    pub fn put(&mut self, rows: Rows)
        requires table { IsTable (tabled rows) }
        requires restricted { All (λ u. u < size (tabled rows)) rows.restricted }
        requires within { IsWithin (tabled rows) (sample (tabled rows)) }
        ensures rows { self.new ≡ tabled rows }
        ensures within { IsWithin self.new (sample self.new) }
        ensures table { IsTable self.new }
    {
        let Rows {
            owners,
            columns,
            entries,
            constants,
            restricted,
        } = rows;
        let mut index = mem::replace(&mut self.grid.index, Index::new(self.alloc));
        index.clear(owners.len() + columns.len());
        let mut grid = Grid {
            owners: owners.into_owners(&restricted),
            columns: columns.into_owners(&restricted),
            entries: entries.into_lists(),
            constants: constants.into_items(),
            index,
        };
        grid.note_all();
        self.grid = grid;
    }
}
