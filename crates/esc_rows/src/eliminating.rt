//! The unknown of a column is taken out of the other rows, by the row that is solved for it.
ghost use Rattle.std.specs.Prelude.{◌≡◌, ◌≢◌, ◌↔◌, ℕ, ◌<◌, [], map, length, set, get_or, pos, IsOk};
ghost use Rattle.esc_frac.specs.Fits.{QuotientFits};
ghost use Rattle.esc_frac.specs.Rational.{zero_ℚ, ◌+ℚ◌, ◌*ℚ◌};
ghost use Rattle.esc_rows.specs.Rows.{solved, eliminated};
ghost use Rattle.esc_rows.specs.Steps.{StepFits, MultipleFits, EliminationFits, EliminationsFit};

use crate::solving::solved_entry;
use crate::steps::{add_multiple, is_zero, step, sum_with_multiple};
use esc_frac::{Frac, Spill};

/// Takes the unknown of a column out of each row but one that has it, by the row that is solved for
/// it, where each step fits.
pub fn eliminate_rows(rows: &mut [Vec<Frac>], kept: usize, column: usize, other: &[Frac])
    requires widths { (i : ℕ) → i < length rows.old → i ≢ kept
        → length (get_or (map (λ es. es.items) rows.old) i []) ≡ length other.now }
    requires inside { column < length other.now }
    requires fits { (i : ℕ) → i < length rows.old → i ≢ kept
        → (get_or (get_or (map (λ es. es.items) rows.old) i []) column zero_ℚ).num ≢ pos 0
        → MultipleFits (get_or (get_or (map (λ es. es.items) rows.old) i []) column zero_ℚ)
        (set (get_or (map (λ es. es.items) rows.old) i []) column zero_ℚ) other.now }
    ensures others { (i : ℕ) → i < length rows.old → i ≢ kept
        → get_or (map (λ es. es.items) rows.new) i []
        ≡ eliminated (get_or (map (λ es. es.items) rows.old) i []) column other.now }
    ensures same { get_or (map (λ es. es.items) rows.new) kept []
        ≡ get_or (map (λ es. es.items) rows.old) kept [] }
{
    for (place, row) in rows.iter_mut().enumerate() {
        if place != kept {
            eliminate(row, column, other);
        }
    }
}

// Takes the unknown of a column out of a row, where it has it.
fn eliminate(row: &mut [Frac], column: usize, other: &[Frac])
    requires lengths { length row.old ≡ length other.now }
    requires inside { column < length row.old }
    requires fits { (get_or row.old column zero_ℚ).num ≢ pos 0
        → MultipleFits (get_or row.old column zero_ℚ) (set row.old column zero_ℚ) other.now }
    ensures { row.new ≡ eliminated row.old column other.now }
{
    let factor = row[column];
    if is_zero(factor) {
        return;
    }
    row[column] = Frac::whole(0);
    match add_multiple(factor, row, other) {
        Ok(()) => {}
        Err(Spill) => unreachable!(),
    }
}

/// Tries each step of taking the unknown of a column out of each row but one that has it and out of
/// its constant. `own` is the row that is to be solved for it, and `constant` that of the solved
/// row.
pub fn try_eliminate_rows(
    rows: &[Vec<Frac>],
    constants: &[Frac],
    kept: usize,
    column: usize,
    own: &[Frac],
    constant: Frac,
) -> Result<(), Spill>
    requires widths { (i : ℕ) → i < length rows.now
        → length (get_or (map (λ es. es.items) rows.now) i []) ≡ length own.now }
    requires constants { length constants.now ≡ length rows.now }
    requires inside { column < length own.now }
    requires nonzero { (get_or own.now column zero_ℚ).num ≢ pos 0 }
    requires solving { (j : ℕ) → j < length own.now → j ≢ column
        → QuotientFits (get_or own.now j zero_ℚ) (get_or own.now column zero_ℚ) }
    ensures { IsOk result ↔ EliminationsFit (map (λ es. es.items) rows.now) constants.now kept
        column (solved own.now column) constant }
{
    for (place, row) in rows.iter().enumerate() {
        if place != kept {
            try_eliminate(row, constants[place], column, own, constant)?;
        }
    }
    Ok(())
}

// Tries each step of taking the unknown of a column out of a row and its constant, where it has it.
fn try_eliminate(
    row: &[Frac],
    held: Frac,
    column: usize,
    own: &[Frac],
    constant: Frac,
) -> Result<(), Spill>
    requires lengths { length row.now ≡ length own.now }
    requires inside { column < length own.now }
    requires nonzero { (get_or own.now column zero_ℚ).num ≢ pos 0 }
    requires solving { (j : ℕ) → j < length own.now → j ≢ column
        → QuotientFits (get_or own.now j zero_ℚ) (get_or own.now column zero_ℚ) }
    ensures { IsOk result ↔ ((get_or row.now column zero_ℚ).num ≢ pos 0
        → EliminationFits row.now held column (solved own.now column) constant) }
{
    if is_zero(row[column]) {
        return Ok(());
    }
    try_eliminate_entries(row, column, own)?;
    step(held, row[column], constant)?;
    Ok(())
}

// Tries each step of the entries.
fn try_eliminate_entries(row: &[Frac], column: usize, own: &[Frac]) -> Result<(), Spill>
    requires lengths { length row.now ≡ length own.now }
    requires inside { column < length own.now }
    requires nonzero { (get_or own.now column zero_ℚ).num ≢ pos 0 }
    requires solving { (j : ℕ) → j < length own.now → j ≢ column
        → QuotientFits (get_or own.now j zero_ℚ) (get_or own.now column zero_ℚ) }
    ensures { IsOk result ↔ MultipleFits (get_or row.now column zero_ℚ) (set row.now column zero_ℚ)
        (solved own.now column) }
{
    let factor = row[column];
    for place in 0..row.len() {
        step(
            entry_without(row, column, place),
            factor,
            fitting_entry(own, column, place),
        )?;
    }
    Ok(())
}

// An entry of the row with 0 in the column's place.
fn entry_without(row: &[Frac], column: usize, place: usize) -> Frac
    requires { place < length row.now }
    ensures { result ≡ get_or (set row.now column zero_ℚ) place zero_ℚ }
{
    if place == column {
        Frac::whole(0)
    } else {
        row[place]
    }
}

// An entry of the solved row, where its division fits.
fn fitting_entry(own: &[Frac], column: usize, place: usize) -> Frac
    requires inside { column < length own.now }
    requires within { place < length own.now }
    requires nonzero { (get_or own.now column zero_ℚ).num ≢ pos 0 }
    requires fits { place ≢ column → QuotientFits (get_or own.now place zero_ℚ)
        (get_or own.now column zero_ℚ) }
    ensures { result ≡ get_or (solved own.now column) place zero_ℚ }
{
    match solved_entry(own, column, place) {
        Ok(entry) => entry,
        Err(Spill) => unreachable!(),
    }
}

/// Adds to each constant but one the multiple of the solved row's one, where each step fits.
pub fn eliminate_constants(
    constants: &mut [Frac],
    rows: &[Vec<Frac>],
    kept: usize,
    column: usize,
    constant: Frac,
)
    requires constants { length constants.old ≡ length rows.now }
    requires widths { (i : ℕ) → i < length rows.now → column
        < length (get_or (map (λ es. es.items) rows.now) i []) }
    requires fits { (i : ℕ) → i < length rows.now → i ≢ kept
        → (get_or (get_or (map (λ es. es.items) rows.now) i []) column zero_ℚ).num ≢ pos 0
        → StepFits (get_or (get_or (map (λ es. es.items) rows.now) i []) column zero_ℚ)
        (get_or constants.old i zero_ℚ) constant }
    ensures others { (i : ℕ) → i < length rows.now → i ≢ kept → get_or constants.new i zero_ℚ
        ≡ get_or constants.old i zero_ℚ +ℚ get_or (get_or (map (λ es. es.items) rows.now) i [])
        column zero_ℚ *ℚ constant }
{
    for (place, row) in rows.iter().enumerate() {
        if place != kept {
            constants[place] = moved_constant(constants[place], row[column], constant);
        }
    }
}

// The constant and the multiple of the solved row's one, where that step fits or is none.
fn moved_constant(held: Frac, factor: Frac, constant: Frac) -> Frac
    requires { factor.num ≢ pos 0 → StepFits factor held constant }
    ensures { result ≡ held +ℚ factor *ℚ constant }
{
    if is_zero(factor) {
        held
    } else {
        sum_with_multiple(held, factor, constant)
    }
}
