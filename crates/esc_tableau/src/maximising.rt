//! An unknown is maximised by pivots.
ghost use Rattle.std.specs.Prelude.{◌≡◌, ◌≢◌, ◌↔◌, ◌<◌, length, pos, IsOk, OnOk, OnErr, IfErr};
ghost use Rattle.esc_rows.specs.Steps.{PivotFits};
ghost use Rattle.esc_tableau.specs.Grid.{table_of};
ghost use Rattle.esc_tableau.specs.Run.{Advances, Ends, EndsNow};
ghost use Rattle.esc_tableau.specs.Table.{IsTable, SameSystem, owner, column as unknown_at, entry, pivoted};

use crate::grid::Grid;
use crate::rule::Next;
use crate::{Jam, Peak, Step, Unknown};
use esc_frac::Spill;
use std::alloc::Global;

impl Grid {
    /// Maximises the unknown by the rule, with as many pivots as are allowed.
    pub fn maximise(&mut self, unknown: Unknown, limit: u64, alloc: Global) -> Result<Peak, Jam>
        requires { IsTable (table_of self.old) }
        ensures table { IsTable (table_of self.new) }
        ensures ends { Ends (table_of self.old) (table_of self.new) unknown limit result }
    {
        for spent in 0..limit {
            match self.advance(unknown, alloc) {
                Ok(None) => {}
                Ok(Some(peak)) => return Ok(peak),
                Err(step) => return Err(Jam::Spill(step)),
            }
        }
        self.last(unknown)
    }

    // Where no pivot is left.
    fn last(&self, unknown: Unknown) -> Result<Peak, Jam>
        requires { IsTable (table_of self.now) }
        ensures { EndsNow (table_of self.now) unknown result }
    {
        match self.next(unknown) {
            Ok(found) => match found {
                Next::Stops(peak) => Ok(peak),
                Next::Pivots(_, _) => Err(Jam::Pivots),
            },
            Err(step) => Err(Jam::Spill(step)),
        }
    }

    // One pivot of the rule. The peak where it stops.
    fn advance(&mut self, unknown: Unknown, alloc: Global) -> Result<Option<Peak>, Step>
        requires { IsTable (table_of self.old) }
        ensures table { IsTable (table_of self.new) }
        ensures advances { Advances (table_of self.old) (table_of self.new) unknown result }
    {
        match self.next(unknown)? {
            Next::Stops(peak) => Ok(Some(peak)),
            Next::Pivots(row, column) => {
                self.named_pivot(row, column, alloc)?;
                Ok(None)
            }
        }
    }

    /// A pivot at a row and a column, by their places. `Step` tells their unknowns.
    pub fn named_pivot(&mut self, row: usize, column: usize, alloc: Global) -> Result<(), Step>
        requires table { IsTable (table_of self.old) }
        requires row { row < length self.old.owners.items }
        requires column { column < length self.old.columns.items }
        requires nonzero { (entry (table_of self.old) row column).num ≢ pos 0 }
        ensures fits { IsOk result ↔ PivotFits (table_of self.old).entries
            (table_of self.old).constants row column }
        ensures ok { OnOk result (table_of self.new ≡ pivoted (table_of self.old) row column) }
        ensures err { OnErr result (table_of self.new ≡ table_of self.old) }
        ensures step { IfErr result (λ step. step ≡ Step.Pivot (owner (table_of self.old) row)
            (unknown_at (table_of self.old) column)) }
        ensures table { IsTable (table_of self.new) }
        ensures same { SameSystem (table_of self.old) (table_of self.new) }
    {
        let leaver = self.owners[row].unknown;
        let entrant = self.columns[column].unknown;
        match self.pivot(row, column, alloc) {
            Ok(()) => Ok(()),
            Err(Spill) => Err(Step::Pivot {
                row: leaver,
                column: entrant,
            }),
        }
    }
}
