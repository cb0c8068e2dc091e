//! Steps on a tableau: an unknown is maximised, brought to 0, or set against another.
ghost use Rattle.std.specs.Prelude.{◌≡◌, ℕ, ◌<◌, Some, None, IsTrue, not, ◌↔◌, IfOk, IfErr, OnOk, OnErr, All};
ghost use Rattle.esc_frac.specs.Rational.{zero_ℚ, ◌<ℚ◌, ◌≤ℚ◌};
ghost use Rattle.esc_tableau.specs.Changes.{AddsRow};
ghost use Rattle.esc_tableau.specs.Run.{PeakHolds};
ghost use Rattle.esc_tableau.specs.Table.{Table, IsTable, IsWithin, OwnsRow, sample, size};
ghost use Rattle.esc_simplex.specs.Steps.{ExceedEnds, ExceedStops, IsPeak, KeepsSystem, LiftEnds, MaximisingStops, RowStops, SpillStops, gap_constant, gap_parts};

use crate::stop::{Jammed, Stop};
use esc_frac::{Frac, Sign};
use esc_tableau::{Jam, Part, Parts, Peak, RowStop, Step, Tableau, Unknown};
use sqlite_items::Items;
use std::alloc::{AllocError, Global};

/// Whether the sample of the unknown is below 0.
pub fn is_negative(tableau: &Tableau, unknown: Unknown) -> bool
    ensures below { IsTrue result ↔ (sample tableau.now unknown <ℚ zero_ℚ) }
    ensures above { IsTrue (not result) ↔ (zero_ℚ ≤ℚ sample tableau.now unknown) }
{
    match tableau.value(unknown).sign() {
        Sign::Negative => true,
        _ => false,
    }
}

// The stop at a step that does not fit, with the rows as they stand.
fn spilled(tableau: &Tableau, unknown: Option<Unknown>, step: Step, limit: u64) -> Stop
    ensures { SpillStops tableau.now unknown step result }
{
    match tableau.rows() {
        Ok(rows) => Stop::Spill(Jammed {
            rows,
            unknown,
            step,
            limit,
        }),
        Err(AllocError) => Stop::Memory,
    }
}

/// Maximises the unknown with at most so many pivots. The rows are copied where it needs one.
pub fn maximised(tableau: &mut Tableau, unknown: Unknown, limit: u64) -> Result<Peak, Stop>
    requires unknown { unknown < size tableau.old }
    requires table { IsTable tableau.old }
    requires within { IsWithin tableau.old (sample tableau.old) }
    ensures keeps { KeepsSystem tableau.old tableau.new }
    ensures row { OwnsRow tableau.old unknown → OwnsRow tableau.new unknown }
    ensures peak { IfOk result (IsPeak tableau.new unknown) }
    ensures holds { IfOk result (PeakHolds tableau.new unknown) }
    ensures stops { IfErr result (MaximisingStops tableau.old tableau.new unknown limit) }
{
    match tableau.maximise(unknown, 0) {
        Ok(peak) => Ok(peak),
        Err(Jam::Spill(step)) => Err(spilled(tableau, Some(unknown), step, limit)),
        Err(Jam::Pivots) => pivoted_to_peak(tableau, unknown, limit),
    }
}

// The same with a copy of the rows at the start.
fn pivoted_to_peak(tableau: &mut Tableau, unknown: Unknown, limit: u64) -> Result<Peak, Stop>
    requires unknown { unknown < size tableau.old }
    requires table { IsTable tableau.old }
    requires within { IsWithin tableau.old (sample tableau.old) }
    ensures keeps { KeepsSystem tableau.old tableau.new }
    ensures row { OwnsRow tableau.old unknown → OwnsRow tableau.new unknown }
    ensures peak { IfOk result (IsPeak tableau.new unknown) }
    ensures holds { IfOk result (PeakHolds tableau.new unknown) }
    ensures stops { IfErr result (MaximisingStops tableau.old tableau.new unknown limit) }
{
    let Ok(rows) = tableau.rows() else {
        return Err(Stop::Memory);
    };
    match tableau.maximise(unknown, limit) {
        Ok(peak) => Ok(peak),
        Err(Jam::Spill(step)) => Err(spilled(tableau, Some(unknown), step, limit)),
        Err(Jam::Pivots) => Err(Stop::Pivots(Jammed {
            rows,
            unknown: Some(unknown),
            step: Step::Row,
            limit,
        })),
    }
}

/// Brings the unknown to 0 or above, where the restrictions allow it anywhere. At 0 it gives up its
/// row to a free unknown: a restricted row at 0 lets none of the columns in it move.
pub fn lift(tableau: &mut Tableau, unknown: Unknown, limit: u64) -> Result<bool, Stop>
    requires unknown { unknown < size tableau.old }
    requires table { IsTable tableau.old }
    requires within { IsWithin tableau.old (sample tableau.old) }
    ensures keeps { KeepsSystem tableau.old tableau.new }
    ensures ends { IfOk result (LiftEnds tableau.new unknown) }
    ensures stops { IfErr result (MaximisingStops tableau.old tableau.new unknown limit) }
{
    let found = bring_up(tableau, unknown, limit)?;
    if !found {
        return Ok(false);
    }
    tableau.settle(unknown);
    Ok(true)
}

// The same, whoever owns the rows then.
fn bring_up(tableau: &mut Tableau, unknown: Unknown, limit: u64) -> Result<bool, Stop>
    requires unknown { unknown < size tableau.old }
    requires table { IsTable tableau.old }
    requires within { IsWithin tableau.old (sample tableau.old) }
    ensures keeps { KeepsSystem tableau.old tableau.new }
    ensures ends { IfOk result (LiftEnds tableau.new unknown) }
    ensures stops { IfErr result (MaximisingStops tableau.old tableau.new unknown limit) }
{
    if !is_negative(tableau, unknown) {
        return Ok(true);
    }
    match maximised(tableau, unknown, limit)? {
        Peak::NotPositive => Ok(!is_negative(tableau, unknown)),
        Peak::Positive { ray: None } => Ok(true),
        Peak::Positive { ray: Some(ray) } => lift_along(tableau, unknown, ray, limit),
    }
}

// The same where it grows without bound along the ray.
fn lift_along(
    tableau: &mut Tableau,
    unknown: Unknown,
    ray: Unknown,
    limit: u64,
) -> Result<bool, Stop>
    requires row { OwnsRow tableau.old unknown }
    requires table { IsTable tableau.old }
    requires within { IsWithin tableau.old (sample tableau.old) }
    requires peak { IsPeak tableau.old unknown (Peak.Positive (Some ray)) }
    ensures keeps { KeepsSystem tableau.old tableau.new }
    ensures ends { IfOk result (LiftEnds tableau.new unknown) }
    ensures stops { (start : Table) → IfErr result
        (MaximisingStops start tableau.new unknown limit) }
{
    if !is_negative(tableau, unknown) {
        return Ok(true);
    }
    match tableau.raise(unknown, ray) {
        Ok(()) => Ok(true),
        Err(step) => Err(spilled(tableau, Some(unknown), step, limit)),
    }
}

/// Whether one unknown is somewhere above the other within the restrictions.
pub fn exceeds(
    tableau: &mut Tableau,
    upper: Unknown,
    lower: Unknown,
    limit: u64,
    alloc: Global,
) -> Result<bool, Stop>
    requires upper { upper < size tableau.old }
    requires lower { lower < size tableau.old }
    requires table { IsTable tableau.old }
    requires within { IsWithin tableau.old (sample tableau.old) }
    ensures keeps { KeepsSystem tableau.old tableau.new }
    ensures ends { IfOk result (ExceedEnds tableau.old upper lower) }
    ensures stops { IfErr result (ExceedStops tableau.old upper lower limit) }
{
    let unknown = add_gap_row(tableau, upper, lower, false, limit, alloc)?;
    let found = maximised(tableau, unknown, limit);
    tableau.drop_last();
    match found? {
        Peak::NotPositive => Ok(false),
        Peak::Positive { ray: _ } => Ok(true),
    }
}

/// Adds the row of the first unknown less the second, and less 1 where it is strict.
pub fn add_gap_row(
    tableau: &mut Tableau,
    upper: Unknown,
    lower: Unknown,
    strict: bool,
    limit: u64,
    alloc: Global,
) -> Result<Unknown, Stop>
    requires upper { upper < size tableau.old }
    requires lower { lower < size tableau.old }
    ensures unknown { IfOk result (λ u. u ≡ size tableau.old) }
    ensures table { OnOk result (IsTable tableau.new) }
    ensures adds { OnOk result (AddsRow tableau.old tableau.new (gap_parts upper lower)
        (gap_constant strict)) }
    ensures err { OnErr result (tableau.new ≡ tableau.old) }
    ensures stops { IfErr result (RowStops tableau.old (gap_parts upper lower)
        (gap_constant strict)) }
{
    let Ok(parts) = difference(upper, lower, alloc) else {
        return Err(Stop::Memory);
    };
    add_row(tableau, &parts, constant_of(strict), limit)
}

/// The parts of the first unknown less the second.
pub fn difference(upper: Unknown, lower: Unknown, alloc: Global) -> Result<Parts, AllocError>
    ensures { IfOk result (λ parts. parts ≡ gap_parts upper lower) }
{
    let one = Frac::whole(1);
    let mut parts = Items::new(alloc);
    parts.push(Part {
        unknown: upper,
        factor: one,
    })?;
    parts.push(Part {
        unknown: lower,
        factor: one.negative(),
    })?;
    Ok(parts)
}

/// The constant of such a row: 1 is taken away where it is strict.
pub fn constant_of(strict: bool) -> Frac
    ensures { result ≡ gap_constant strict }
{
    if strict {
        Frac::whole(1).negative()
    } else {
        Frac::whole(0)
    }
}

/// Adds a row. For want of memory and where a step does not fit the tableau stays as it was.
pub fn add_row(
    tableau: &mut Tableau,
    parts: &Parts,
    constant: Frac,
    limit: u64,
) -> Result<Unknown, Stop>
    requires { All (λ part. part.unknown < size tableau.old) parts.now }
    ensures unknown { IfOk result (λ u. u ≡ size tableau.old) }
    ensures table { OnOk result (IsTable tableau.new) }
    ensures adds { OnOk result (AddsRow tableau.old tableau.new parts.now constant) }
    ensures err { OnErr result (tableau.new ≡ tableau.old) }
    ensures stops { IfErr result (RowStops tableau.old parts.now constant) }
{
    match tableau.add_row(parts, constant) {
        Ok(unknown) => Ok(unknown),
        Err(RowStop::Spill) => Err(spilled(tableau, None, Step::Row, limit)),
        Err(RowStop::Memory) => Err(Stop::Memory),
    }
}
