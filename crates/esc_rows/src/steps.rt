//! One entry and a multiple that is added to it, and a whole row.
ghost use Rattle.std.specs.Prelude.{◌≡◌, ◌↔◌, length, pos, IsTrue, IsOk, OnOk, OkIff};
ghost use Rattle.esc_frac.specs.Rational.{◌+ℚ◌, ◌*ℚ◌};
ghost use Rattle.esc_rows.specs.Rows.{plus_multiple};
ghost use Rattle.esc_rows.specs.Steps.{StepFits, MultipleFits};

use esc_frac::{Frac, Sign, Spill};

/// Whether the fraction is 0.
pub fn is_zero(fraction: Frac) -> bool
    ensures { IsTrue result ↔ (fraction.num ≡ pos 0) }
{
    match fraction.sign() {
        Sign::Zero => true,
        _ => false,
    }
}

/// The entry and `factor` times `added`.
pub fn step(entry: Frac, factor: Frac, added: Frac) -> Result<Frac, Spill>
    ensures { OkIff result (StepFits factor entry added) (entry +ℚ factor *ℚ added) }
{
    let multiple = Frac::mul(factor, added)?;
    Frac::add(entry, multiple)
}

/// The entry and `factor` times `added`, where that step fits.
pub fn sum_with_multiple(entry: Frac, factor: Frac, added: Frac) -> Frac
    requires { StepFits factor entry added }
    ensures { result ≡ entry +ℚ factor *ℚ added }
{
    match step(entry, factor, added) {
        Ok(sum) => sum,
        Err(Spill) => unreachable!(),
    }
}

/// Adds `factor` times the other row to the row. `Spill` where a step does not fit: the content of
/// the row is then open.
pub fn add_multiple(factor: Frac, row: &mut [Frac], other: &[Frac]) -> Result<(), Spill>
    requires { length row.old ≡ length other.now }
    ensures fits { IsOk result ↔ MultipleFits factor row.old other.now }
    ensures value { OnOk result (row.new ≡ plus_multiple factor row.old other.now) }
{
    for (place, entry) in row.iter_mut().enumerate() {
        *entry = step(*entry, factor, other[place])?;
    }
    Ok(())
}
