//! A row is solved for the unknown of one of its columns.
ghost use Rattle.std.specs.Prelude.{◌≡◌, ◌≢◌, ◌↔◌, ℕ, ◌<◌, length, get_or, pos, IsOk, OkIff};
ghost use Rattle.esc_frac.specs.Fits.{QuotientFits};
ghost use Rattle.esc_frac.specs.Rational.{zero_ℚ, neg_ℚ, ◌/ℚ◌};
ghost use Rattle.esc_rows.specs.Rows.{solved, solved_constant as constant_of_solved};
ghost use Rattle.esc_rows.specs.Steps.{SolvingFits};

use esc_frac::{Frac, Spill};

/// Tries each step of solving a row and its constant for the unknown of the row's column.
pub fn try_solve(row: &[Frac], constant: Frac, column: usize) -> Result<(), Spill>
    requires inside { column < length row.now }
    requires nonzero { (get_or row.now column zero_ℚ).num ≢ pos 0 }
    ensures { IsOk result ↔ SolvingFits row.now constant column }
{
    try_solve_entries(row, column)?;
    quotient(constant, row[column])?;
    Ok(())
}

// Tries each division of an entry by the one at the column.
fn try_solve_entries(row: &[Frac], column: usize) -> Result<(), Spill>
    requires inside { column < length row.now }
    requires nonzero { (get_or row.now column zero_ℚ).num ≢ pos 0 }
    ensures { IsOk result ↔ ((j : ℕ) → j < length row.now → j ≢ column
        → QuotientFits (get_or row.now j zero_ℚ) (get_or row.now column zero_ℚ)) }
{
    for place in 0..row.len() {
        solved_entry(row, column, place)?;
    }
    Ok(())
}

/// One entry of the solved row.
pub fn solved_entry(row: &[Frac], column: usize, place: usize) -> Result<Frac, Spill>
    requires inside { column < length row.now }
    requires within { place < length row.now }
    requires nonzero { (get_or row.now column zero_ℚ).num ≢ pos 0 }
    ensures { OkIff result (place ≢ column → QuotientFits (get_or row.now place zero_ℚ)
        (get_or row.now column zero_ℚ)) (get_or (solved row.now column) place zero_ℚ) }
{
    let pivot = row[column];
    if place == column {
        Ok(pivot.inverse())
    } else {
        quotient(row[place], pivot)
    }
}

// Minus the quotient.
fn quotient(entry: Frac, pivot: Frac) -> Result<Frac, Spill>
    requires { pivot.num ≢ pos 0 }
    ensures { OkIff result (QuotientFits entry pivot) (neg_ℚ (entry /ℚ pivot)) }
{
    Ok(Frac::div(entry, pivot)?.negative())
}

/// The constant of the solved row, where the division fits.
pub fn solved_constant(row: &[Frac], constant: Frac, column: usize) -> Frac
    requires inside { column < length row.now }
    requires nonzero { (get_or row.now column zero_ℚ).num ≢ pos 0 }
    requires fits { QuotientFits constant (get_or row.now column zero_ℚ) }
    ensures { result ≡ constant_of_solved row.now column constant }
{
    fitting_quotient(constant, row[column])
}

// Minus the quotient, where the division fits.
fn fitting_quotient(entry: Frac, pivot: Frac) -> Frac
    requires nonzero { pivot.num ≢ pos 0 }
    requires fits { QuotientFits entry pivot }
    ensures { result ≡ neg_ℚ (entry /ℚ pivot) }
{
    match quotient(entry, pivot) {
        Ok(answer) => answer,
        Err(Spill) => unreachable!(),
    }
}

/// Solves the row for the unknown of its column, where each division fits.
pub fn solve(row: &mut [Frac], column: usize)
    requires inside { column < length row.old }
    requires nonzero { (get_or row.old column zero_ℚ).num ≢ pos 0 }
    requires fits { (j : ℕ) → j < length row.old → j ≢ column
        → QuotientFits (get_or row.old j zero_ℚ) (get_or row.old column zero_ℚ) }
    ensures { row.new ≡ solved row.old column }
{
    let pivot = row[column];
    for (place, entry) in row.iter_mut().enumerate() {
        if place == column {
            *entry = pivot.inverse();
        } else {
            *entry = fitting_quotient(*entry, pivot);
        }
    }
}
