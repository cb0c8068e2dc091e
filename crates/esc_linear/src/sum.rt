//! Sums and differences of forms.

ghost use Rattle.std.specs.Prelude.{◌≡◌, ◌≢◌, ◌<◌, [], length, get_or, IfOk, MatchOption};
ghost use Rattle.std.specs.List.{All};
ghost use Rattle.esc_linear.specs.Forms.{with_part, with_parts, plus as plus_of, negative as negative_of, less, total as total_of};
ghost use Rattle.esc_linear.specs.PlacesInside.{IsPlaceOf, IsNowhere};
ghost use Rattle.esc_linear.specs.Steps.{Yields, part_steps, parts_steps, plus_steps, less_steps, total_steps};

use crate::form::{Form, FormJam, Part, Parts};
use esc_frac::Frac;
use esc_term::Term;
use sqlite_items::Items;
use std::alloc::{AllocError, Global};

/// The difference of two forms: the coefficients of the second are subtracted in their order, and
/// then its constant. Terms that are new stand behind the others, and a term whose coefficient
/// becomes 0 is dropped. `Spill` exactly where a step is out of range.
pub fn minus(alloc: Global, a: &Form, b: &Form) -> Result<Form, FormJam>
    ensures { Yields result (less_steps a.now b.now) (less a.now b.now) }
{
    subtract(alloc, a.copy(alloc)?, b)
}

/// The first form less the second.
pub(crate) fn subtract(alloc: Global, a: Form, b: &Form) -> Result<Form, FormJam>
    ensures { Yields result (less_steps a b.now) (less a b.now) }
{
    let taken = negative(alloc, b)?;
    plus(alloc, a, &taken)
}

/// The sum of the forms, from the left.
pub(crate) fn total(alloc: Global, forms: &[Form]) -> Result<Form, FormJam>
    ensures { Yields result (total_steps forms.now) (total_of forms.now) }
{
    let mut sum = Form::constant(alloc, Frac::whole(0));
    'forms: for form in forms {
        sum = plus(alloc, sum, form)?;
    }
    Ok(sum)
}

// The sum of two forms: the coefficients of the second are added in their order, and then its
// constant.
fn plus(alloc: Global, a: Form, b: &Form) -> Result<Form, FormJam>
    ensures { Yields result (plus_steps a b.now) (plus_of a b.now) }
{
    let Form { parts, constant } = a;
    let parts = add_parts(alloc, parts, b.parts.as_slice())?;
    let constant = Frac::add(constant, b.constant)?;
    Ok(Form { parts, constant })
}

fn add_parts(alloc: Global, parts: Parts, more: &[Part]) -> Result<Parts, FormJam>
    ensures { Yields result (parts_steps parts more.now) (with_parts parts more.now) }
{
    let mut sums = parts;
    'parts: for part in more {
        sums = add_part(alloc, sums, &part.term, part.factor)?;
    }
    Ok(sums)
}

// Adds to the coefficient of the term.
fn add_part(alloc: Global, parts: Parts, term: &Term, factor: Frac) -> Result<Parts, FormJam>
    ensures { Yields result (part_steps parts term.now factor) (with_part parts term.now factor) }
{
    match place_of(parts.as_slice(), term) {
        Some(place) => add_at(alloc, parts, place, term, factor),
        None => add_at_end(alloc, parts, term, factor),
    }
}

// The first place of the term.
fn place_of(parts: &[Part], term: &Term) -> Option<usize>
    ensures { MatchOption result (IsNowhere parts.now term.now) (IsPlaceOf parts.now term.now) }
{
    'places: for (place, part) in parts.iter().enumerate() {
        if part.term == *term {
            return Some(place);
        }
    }
    None
}

#[tactic(auto, using(crate::proofs::StepLemmas::answering))]
fn add_at(
    alloc: Global,
    mut parts: Parts,
    place: usize,
    term: &Term,
    factor: Frac,
) -> Result<Parts, FormJam>
    requires { IsPlaceOf parts term.now place }
    ensures { Yields result (part_steps parts term.now factor) (with_part parts term.now factor) }
{
    let old = parts.as_slice()[place].factor;
    let sum = Frac::add(old, factor)?;
    if sum.is_zero() {
        parts.remove(place);
        return Ok(parts);
    }
    let term = term.copy(alloc)?;
    parts.set(place, Part { term, factor: sum });
    Ok(parts)
}

#[tactic(auto, using(crate::proofs::StepLemmas::answering))]
fn add_at_end(alloc: Global, mut parts: Parts, term: &Term, factor: Frac) -> Result<Parts, FormJam>
    requires { IsNowhere parts term.now }
    ensures { Yields result (part_steps parts term.now factor) (with_part parts term.now factor) }
{
    if factor.is_zero() {
        return Ok(parts);
    }
    let term = term.copy(alloc)?;
    parts.push(Part { term, factor })?;
    Ok(parts)
}

// The form with each number negated.
fn negative(alloc: Global, form: &Form) -> Result<Form, AllocError>
    ensures { IfOk result (λ f. f ≡ negative_of form.now) }
{
    let mut parts = Items::new(alloc);
    'parts: for part in form.parts.as_slice() {
        let term = part.term.copy(alloc)?;
        let factor = part.factor.negative();
        parts.push(Part { term, factor })?;
    }
    let constant = form.constant.negative();
    Ok(Form { parts, constant })
}
