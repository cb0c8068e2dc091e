//! Which column enters and which row leaves where an unknown is maximised.
ghost use Rattle.std.specs.Prelude.{◌≡◌, ◌≢◌, ℕ, ◌<◌, length, pos, IsOk, IfOk, IfErr, OkIff, option_map};
ghost use Rattle.esc_frac.specs.Fits.{QuotientFits};
ghost use Rattle.esc_tableau.specs.Grid.{table_of};
ghost use Rattle.esc_tableau.specs.Rule.{is_positive, absolute, slope, way, improving, entering, is_against, bounding, ratio, leaving, next};
ghost use Rattle.esc_tableau.specs.Run.{RuleFits, RatiosFit, RuleJams};
ghost use Rattle.esc_tableau.specs.BoundInside.{BoundFits, LeavingJams, better};
ghost use Rattle.esc_tableau.specs.Table.{IsTable, size, entry, row_constant, sample};

use crate::grid::Grid;
use crate::{Peak, Step, Unknown};
use esc_frac::{Frac, Sign, Spill};
use std::cmp::Ordering;

/// A column whose unknown moves, and whether it moves up.
#[derive(Clone, Copy)]
pub struct Move {
    pub column: usize,
    pub up: bool,
}

/// What a maximising has next.
#[derive(Clone, Copy)]
pub enum Next {
    Stops(Peak),
    /// A pivot at this row and this column.
    Pivots(usize, usize),
}

/// A row that bounds a move, and how far the move can go until its owner is 0.
#[derive(Clone, Copy)]
pub struct Bound {
    pub row: usize,
    pub ratio: Frac,
}

// Whether the fraction is above 0.
fn is_above(fraction: Frac) -> bool
    ensures { result ≡ is_positive fraction }
{
    match fraction.sign() {
        Sign::Positive => true,
        _ => false,
    }
}

// The fraction without its sign.
fn magnitude(fraction: Frac) -> Frac
    ensures { result ≡ absolute fraction }
{
    match fraction.sign() {
        Sign::Negative => fraction.negative(),
        _ => fraction,
    }
}

// Which way the column's unknown moves for another to rise.
fn direction(column: usize, restricted: bool, slope: Sign) -> Option<Move>
    ensures { result ≡ way column restricted slope }
{
    match slope {
        Sign::Zero => None,
        Sign::Positive => Some(Move { column, up: true }),
        Sign::Negative => {
            if restricted {
                None
            } else {
                Some(Move { column, up: false })
            }
        }
    }
}

/// Whether an owner with an entry of this sign falls along the move.
pub fn falls_along(up: bool, entry: Sign) -> bool
    ensures { result ≡ is_against up entry }
{
    match entry {
        Sign::Zero => false,
        Sign::Negative => up,
        Sign::Positive => !up,
    }
}

// The better of a bound and the row.
fn lesser(best: Option<Bound>, row: usize, ratio: Frac) -> Result<Bound, Spill>
    ensures { OkIff result (BoundFits best ratio) (better best row ratio) }
{
    let Some(held) = best else {
        return Ok(Bound { row, ratio });
    };
    match Frac::compare(ratio, held.ratio)? {
        Ordering::Less => Ok(Bound { row, ratio }),
        _ => Ok(held),
    }
}

impl Grid {
    /// What maximising the unknown has next. `Step` where a ratio that bounds the move does not
    /// fit.
    pub fn next(&self, unknown: Unknown) -> Result<Next, Step>
        requires { IsTable (table_of self.now) }
        ensures next { IfOk result (λ n. n ≡ next (table_of self.now) unknown) }
        ensures fits { IsOk result → RuleFits (table_of self.now) unknown }
        ensures jams { IfErr result (RuleJams (table_of self.now) unknown) }
    {
        if is_above(self.value(unknown)) {
            return Ok(Next::Stops(Peak::Positive { ray: None }));
        }
        let Some(entrant) = self.entering(unknown) else {
            return Ok(Next::Stops(Peak::NotPositive));
        };
        let column = self.columns[entrant.column].unknown;
        match self.leaving(entrant) {
            Ok(Some(row)) => Ok(Next::Pivots(row, entrant.column)),
            Ok(None) => Ok(Next::Stops(Peak::Positive { ray: Some(column) })),
            Err(row) => Err(Step::Ratio { row, column }),
        }
    }

    // The move of the least unknown that improves the unknown.
    fn entering(&self, unknown: Unknown) -> Option<Move>
        requires { IsTable (table_of self.now) }
        ensures { result ≡ entering (table_of self.now) unknown }
    {
        for number in 0..self.count() {
            let found = self.improving(unknown, Unknown::numbered(number));
            if found.is_some() {
                return found;
            }
        }
        None
    }

    // The move of the candidate's column, where it makes the unknown rise.
    fn improving(&self, unknown: Unknown, candidate: Unknown) -> Option<Move>
        requires { IsTable (table_of self.now) }
        ensures { result ≡ improving (table_of self.now) unknown candidate }
    {
        let column = self.column_place(candidate);
        if column < self.columns.len() {
            let slope = self.slope(unknown, column);
            direction(column, self.columns[column].restricted, slope.sign())
        } else {
            None
        }
    }

    /// How fast the unknown rises with that of the column.
    pub fn slope(&self, unknown: Unknown, column: usize) -> Frac
        requires table { IsTable (table_of self.now) }
        requires column { column < length self.now.columns.items }
        ensures { result ≡ slope (table_of self.now) unknown column }
    {
        let row = self.row_place(unknown);
        if row < self.owners.len() {
            self.entry(row, column)
        } else if self.columns[column].unknown.same_as(unknown) {
            Frac::whole(1)
        } else {
            Frac::whole(0)
        }
    }

    // The row of least ratio that bounds the move, on ties that of the least owner. The owner whose
    // ratio does not fit where one does not.
    fn leaving(&self, entrant: Move) -> Result<Option<usize>, Unknown>
        requires table { IsTable (table_of self.now) }
        requires column { entrant.column < length self.now.columns.items }
        ensures leaving { IfOk result (λ row. row ≡ leaving (table_of self.now) entrant) }
        ensures fits { IsOk result → RatiosFit (table_of self.now) entrant
            (size (table_of self.now)) }
        ensures jams { IfErr result (LeavingJams (table_of self.now) entrant) }
    {
        let mut best = None;
        for number in 0..self.count() {
            let owner = Unknown::numbered(number);
            match self.bounding(entrant, owner) {
                None => {}
                Some(row) => match self.bound(entrant, best, row) {
                    Ok(bound) => best = Some(bound),
                    Err(Spill) => return Err(owner),
                },
            }
        }
        Ok(row_of_bound(best))
    }

    // The better of a bound and the row, whose ratio is made.
    fn bound(&self, entrant: Move, best: Option<Bound>, row: usize) -> Result<Bound, Spill>
        requires table { IsTable (table_of self.now) }
        requires column { entrant.column < length self.now.columns.items }
        requires row { row < length self.now.owners.items }
        requires nonzero { (absolute (entry (table_of self.now) row entrant.column)).num ≢ pos 0 }
        ensures { OkIff result (QuotientFits (row_constant (table_of self.now) row)
            (absolute (entry (table_of self.now) row entrant.column))
            × BoundFits best (ratio (table_of self.now) entrant row))
            (better best row (ratio (table_of self.now) entrant row)) }
    {
        let ratio = Frac::div(
            self.constants[row],
            magnitude(self.entry(row, entrant.column)),
        )?;
        lesser(best, row, ratio)
    }

    // The owner's row, where it bounds the move.
    fn bounding(&self, entrant: Move, owner: Unknown) -> Option<usize>
        requires table { IsTable (table_of self.now) }
        requires column { entrant.column < length self.now.columns.items }
        ensures { result ≡ bounding (table_of self.now) entrant owner }
    {
        let row = self.row_place(owner);
        if row >= self.owners.len() {
            return None;
        }
        if !self.owners[row].restricted {
            return None;
        }
        if falls_along(entrant.up, self.entry(row, entrant.column).sign()) {
            Some(row)
        } else {
            None
        }
    }
}

fn row_of_bound(best: Option<Bound>) -> Option<usize>
    ensures { result ≡ option_map (λ bound. bound.row) best }
{
    match best {
        None => None,
        Some(bound) => Some(bound.row),
    }
}
