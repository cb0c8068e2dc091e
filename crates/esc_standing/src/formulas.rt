//! The quantified formulas that are kept, and their places.

ghost use Rattle.std.specs.Prelude.{◌≡◌, ◌↔◌, ℕ, Some, slice_get};
ghost use Rattle.std.specs.Prelude.{IfSome, IfNone, IfOk, IsTrue};
ghost use Rattle.std.specs.List.{Any};
ghost use Rattle.std.specs.Option.{option_and_then};
ghost use Rattle.esc_fact.specs.Fact.{IsFact};
ghost use Rattle.esc_fact.specs.Legal.{IsClosedBase};
ghost use Rattle.esc_fact.specs.declared.base.Base.{Base as Grounds};
ghost use Rattle.esc_fact.specs.declared.fact.Fact.TheVariants as made;
ghost use Rattle.esc_rounds.specs.Branch.{closed_with, formula_kept};
ghost use Rattle.esc_standing.specs.Formulas.{AreBeside};

use esc_fact::{Base, quantified_at};
use esc_rounds::Kept;
use esc_term::{Formula, Formulas, Terms, are_same, substitute};
use sqlite_items::Items;
use std::alloc::{AllocError, Global};

/// What is kept of the quantified formulas of a branch, and beside each its closed formula.
#[derive(Drop)]
pub(crate) struct KeptFormulas {
    pub(crate) kept: Items<Kept>,
    pub(crate) closed: Formulas,
}

/// The place of the kept formula that is this one.
pub(crate) fn place_of(formulas: &KeptFormulas, formula: &Formula) -> Option<u64>
    ensures some { IfSome result
        (λ place. slice_get formulas.now.closed place ≡ Some formula.now) }
    ensures none { IfNone result
        ((place : ℕ) → slice_get formulas.now.closed place ≡ Some formula.now → ⊥) }
{
    'places: for (place, closed) in formulas.closed.as_slice().iter().enumerate() {
        if *closed == *formula {
            return Some(place as u64);
        }
    }
    None
}

/// Whether this is kept with the number and the outer terms.
fn goes_by(kept: &Kept, number: u64, outer: &Terms) -> bool
    ensures { IsTrue result ↔ ((kept.now.number ≡ number) × (kept.now.outer ≡ outer.now)) }
{
    kept.number == number && are_same(kept.outer.as_slice(), outer.as_slice())
}

/// The place of the formula that is kept with this number and these outer terms.
fn place_by(kept: &[Kept], number: u64, outer: &Terms) -> Option<u64>
    ensures { IfSome result (λ place. (base : Grounds)
        → option_and_then (formula_kept base) (slice_get kept.now place)
        ≡ closed_with base number outer.now) }
{
    'places: for (place, one) in kept.iter().enumerate() {
        if goes_by(one, number, outer) {
            return Some(place as u64);
        }
    }
    None
}

/// The place of the kept formula that is the one with this number at these outer terms. It fails
/// only where memory is wanting.
pub(crate) fn place_with(
    alloc: Global,
    base: &Base,
    formulas: &KeptFormulas,
    number: u64,
    outer: &Terms,
) -> Result<u64, AllocError>
    requires closed { IsClosedBase base.now }
    requires is_fact { IsFact base.now (made.Skolem number outer.now) }
    requires beside { AreBeside base.now formulas.now.kept formulas.now.closed }
    requires kept { Any (λ k. formula_kept base.now k ≡ closed_with base.now number outer.now)
        formulas.now.kept }
    ensures { IfOk result (λ place.
        option_and_then (formula_kept base.now) (slice_get formulas.now.kept place)
        ≡ closed_with base.now number outer.now) }
{
    if let Some(place) = place_by(formulas.kept.as_slice(), number, outer) {
        return Ok(place);
    }
    let formula = substitute(alloc, quantified_at(base, number), outer)?;
    match place_of(formulas, &formula) {
        Some(place) => Ok(place),
        None => unreachable!(),
    }
}
