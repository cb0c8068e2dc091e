//! A pivot on rows and their constants: first all steps are tried, then the rows are written.
ghost use Rattle.std.specs.Prelude.{◌≡◌, ◌≢◌, ◌↔◌, ℕ, ◌<◌, [], map, length, set, get_or, pos, IsOk};
ghost use Rattle.esc_frac.specs.Rational.{zero_ℚ};
ghost use Rattle.esc_rows.specs.Rows.{solved, solved_constant as constant_of_solved, eliminated, eliminated_constants};
ghost use Rattle.esc_rows.specs.Steps.{MultipleFits, PivotFits};
ghost use Rattle.esc_frac.specs.Fits.{QuotientFits};

use crate::eliminating::{eliminate_constants, eliminate_rows, try_eliminate_rows};
use crate::solving::{solve, solved_constant, try_solve};
use esc_frac::{Frac, Spill};
use std::alloc::Global;
use std::mem;

/// Tries each step of a pivot at a row and a column.
pub fn try_pivot(
    rows: &[Vec<Frac>],
    constants: &[Frac],
    row: usize,
    column: usize,
) -> Result<(), Spill>
    requires row { row < length rows.now }
    requires widths { (i : ℕ) → i < length rows.now
        → length (get_or (map (λ es. es.items) rows.now) i [])
        ≡ length (get_or (map (λ es. es.items) rows.now) row []) }
    requires constants { length constants.now ≡ length rows.now }
    requires column { column < length (get_or (map (λ es. es.items) rows.now) row []) }
    requires nonzero { (get_or (get_or (map (λ es. es.items) rows.now) row []) column zero_ℚ).num
        ≢ pos 0 }
    ensures { IsOk result ↔ PivotFits (map (λ es. es.items) rows.now) constants.now row column }
{
    try_pivot_with(rows, constants, row, column, &rows[row], constants[row])
}

// The same, with the row and its constant by themselves.
fn try_pivot_with(
    rows: &[Vec<Frac>],
    constants: &[Frac],
    row: usize,
    column: usize,
    own: &[Frac],
    held: Frac,
) -> Result<(), Spill>
    requires row { row < length rows.now }
    requires own { own.now ≡ get_or (map (λ es. es.items) rows.now) row [] }
    requires held { held ≡ get_or constants.now row zero_ℚ }
    requires widths { (i : ℕ) → i < length rows.now
        → length (get_or (map (λ es. es.items) rows.now) i []) ≡ length own.now }
    requires constants { length constants.now ≡ length rows.now }
    requires column { column < length own.now }
    requires nonzero { (get_or own.now column zero_ℚ).num ≢ pos 0 }
    ensures { IsOk result ↔ PivotFits (map (λ es. es.items) rows.now) constants.now row column }
{
    try_solve(own, held, column)?;
    let constant = solved_constant(own, held, column);
    try_eliminate_rows(rows, constants, row, column, own, constant)?;
    Ok(())
}

/// Writes a pivot at a row and a column whose steps all fit: the row is solved for the column's
/// unknown, and the others lose it.
pub fn write_pivot(
    rows: &mut [Vec<Frac>],
    constants: &mut [Frac],
    row: usize,
    column: usize,
    alloc: Global,
)
    requires row { row < length rows.old }
    requires widths { (i : ℕ) → i < length rows.old
        → length (get_or (map (λ es. es.items) rows.old) i [])
        ≡ length (get_or (map (λ es. es.items) rows.old) row []) }
    requires constants { length constants.old ≡ length rows.old }
    requires column { column < length (get_or (map (λ es. es.items) rows.old) row []) }
    requires nonzero { (get_or (get_or (map (λ es. es.items) rows.old) row []) column zero_ℚ).num
        ≢ pos 0 }
    requires fits { PivotFits (map (λ es. es.items) rows.old) constants.old row column }
    ensures rows { map (λ es. es.items) rows.new ≡ set
        (map (λ es. eliminated es column (solved (get_or (map (λ es. es.items) rows.old) row [])
        column)) (map (λ es. es.items) rows.old)) row
        (solved (get_or (map (λ es. es.items) rows.old) row []) column) }
    ensures constants { constants.new ≡ set (eliminated_constants (map (λ es. es.items) rows.old)
        constants.old column (constant_of_solved (get_or (map (λ es. es.items) rows.old) row [])
        column (get_or constants.old row zero_ℚ))) row
        (constant_of_solved (get_or (map (λ es. es.items) rows.old) row []) column
        (get_or constants.old row zero_ℚ)) }
{
    write_constants(rows, constants, row, column);
    write_rows(rows, row, column, alloc);
}

// The constants that the pivot leaves.
fn write_constants(rows: &[Vec<Frac>], constants: &mut [Frac], row: usize, column: usize)
    requires row { row < length rows.now }
    requires widths { (i : ℕ) → i < length rows.now
        → length (get_or (map (λ es. es.items) rows.now) i [])
        ≡ length (get_or (map (λ es. es.items) rows.now) row []) }
    requires constants { length constants.old ≡ length rows.now }
    requires column { column < length (get_or (map (λ es. es.items) rows.now) row []) }
    requires nonzero { (get_or (get_or (map (λ es. es.items) rows.now) row []) column zero_ℚ).num
        ≢ pos 0 }
    requires fits { PivotFits (map (λ es. es.items) rows.now) constants.old row column }
    ensures { constants.new ≡ set (eliminated_constants (map (λ es. es.items) rows.now)
        constants.old column (constant_of_solved (get_or (map (λ es. es.items) rows.now) row [])
        column (get_or constants.old row zero_ℚ))) row
        (constant_of_solved (get_or (map (λ es. es.items) rows.now) row []) column
        (get_or constants.old row zero_ℚ)) }
{
    let constant = solved_constant(&rows[row], constants[row], column);
    eliminate_constants(constants, rows, row, column, constant);
    constants[row] = constant;
}

// The rows that the pivot leaves. The pivot's own row stands apart meanwhile.
fn write_rows(rows: &mut [Vec<Frac>], row: usize, column: usize, alloc: Global)
    requires row { row < length rows.old }
    requires widths { (i : ℕ) → i < length rows.old
        → length (get_or (map (λ es. es.items) rows.old) i [])
        ≡ length (get_or (map (λ es. es.items) rows.old) row []) }
    requires column { column < length (get_or (map (λ es. es.items) rows.old) row []) }
    requires nonzero { (get_or (get_or (map (λ es. es.items) rows.old) row []) column zero_ℚ).num
        ≢ pos 0 }
    requires solving { (j : ℕ) → j < length (get_or (map (λ es. es.items) rows.old) row [])
        → j ≢ column → QuotientFits (get_or (get_or (map (λ es. es.items) rows.old) row []) j
        zero_ℚ) (get_or (get_or (map (λ es. es.items) rows.old) row []) column zero_ℚ) }
    requires fits { (i : ℕ) → i < length rows.old → i ≢ row
        → (get_or (get_or (map (λ es. es.items) rows.old) i []) column zero_ℚ).num ≢ pos 0
        → MultipleFits (get_or (get_or (map (λ es. es.items) rows.old) i []) column zero_ℚ)
        (set (get_or (map (λ es. es.items) rows.old) i []) column zero_ℚ)
        (solved (get_or (map (λ es. es.items) rows.old) row []) column) }
    ensures { map (λ es. es.items) rows.new ≡ set (map
        (λ es. eliminated es column (solved (get_or (map (λ es. es.items) rows.old) row []) column))
        (map (λ es. es.items) rows.old)) row (solved (get_or (map (λ es. es.items) rows.old) row [])
        column) }
{
    let mut own = Vec::new(alloc);
    mem::swap(&mut own, &mut rows[row]);
    solve(&mut own, column);
    eliminate_rows(rows, row, column, &own);
    mem::swap(&mut own, &mut rows[row]);
}
