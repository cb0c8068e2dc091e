//! Products of forms.

ghost use Rattle.std.specs.Prelude.{◌≡◌, [], ◌∷◌, ◌++◌, length};
ghost use Rattle.esc_frac.specs.Rational.{◌*ℚ◌};
ghost use Rattle.esc_linear.specs.Forms.{factor_of, with_constant, with_factor, scaled as scaled_of, scaled_first, scaled_parts as scaled_parts_of, times as times_of, opaque_form, varying};
ghost use Rattle.esc_linear.specs.Steps.{Yields, constant_steps, factor_steps, multiplies, scaled_first_steps, scaled_part_steps, scaled_steps, times_steps};

use crate::form::{Form, FormJam, Part, Parts};
use esc_frac::Frac;
use esc_term::Term;
use sqlite_items::Items;
use std::alloc::Global;

/// The product of the forms of the term's arguments. It is opaque where more than one of them is no
/// constant.
pub(crate) fn times(alloc: Global, term: &Term, forms: &[Form]) -> Result<Form, FormJam>
    ensures { Yields result (times_steps forms.now) (times_of (opaque_form term.now) forms.now) }
{
    if count_varying(forms) < 2 {
        return product(alloc, forms);
    }
    Ok(Form::opaque(alloc, term)?)
}

// The product of forms of which at most one is no constant: that one times the product of the
// others, or this product alone.
fn product(alloc: Global, forms: &[Form]) -> Result<Form, FormJam>
    ensures { Yields result (factor_steps forms.now
        ++ scaled_first_steps (varying forms.now) (factor_of forms.now))
        (scaled_first (varying forms.now) (factor_of forms.now)) }
{
    let factor = factor(forms)?;
    'forms: for form in forms {
        if !form.is_constant() {
            return scaled(alloc, form, factor);
        }
    }
    Ok(Form::constant(alloc, factor))
}

// How many of the forms are no constants.
fn count_varying(forms: &[Form]) -> usize
    ensures { result ≡ length (varying forms.now) }
{
    let mut count = 0;
    'forms: for form in forms {
        if !form.is_constant() {
            count += 1;
        }
    }
    count
}

// The product of the constants, from the left.
fn factor(forms: &[Form]) -> Result<Frac, FormJam>
    ensures { Yields result (factor_steps forms.now) (factor_of forms.now) }
{
    let mut factor = Frac::whole(1);
    'forms: for form in forms {
        factor = times_constant(factor, form)?;
    }
    Ok(factor)
}

// The factor times the form, where that is a constant.
fn times_constant(factor: Frac, form: &Form) -> Result<Frac, FormJam>
    ensures { Yields result (constant_steps factor form.now) (with_constant factor form.now) }
{
    if !form.is_constant() {
        return Ok(factor);
    }
    Ok(Frac::mul(factor, form.constant)?)
}

// Each coefficient times the factor, and then the constant.
fn scaled(alloc: Global, form: &Form, factor: Frac) -> Result<Form, FormJam>
    ensures { Yields result (scaled_steps form.now factor) (scaled_of form.now factor) }
{
    let parts = scaled_parts(alloc, form.parts.as_slice(), factor)?;
    let constant = Frac::mul(form.constant, factor)?;
    Ok(Form { parts, constant })
}

fn scaled_parts(alloc: Global, parts: &[Part], factor: Frac) -> Result<Parts, FormJam>
    ensures { Yields result (scaled_part_steps parts.now factor)
        (scaled_parts_of parts.now factor) }
{
    let mut products = Items::new(alloc);
    'parts: for part in parts {
        products = add_scaled(alloc, products, part, factor)?;
    }
    Ok(products)
}

// Adds the part times the factor at the end.
fn add_scaled(
    alloc: Global,
    mut products: Parts,
    part: &Part,
    factor: Frac,
) -> Result<Parts, FormJam>
    ensures { Yields result (multiplies part.now.factor factor ∷ []) (products
        ++ with_factor part.now.term (part.now.factor *ℚ factor) []) }
{
    let product = Frac::mul(part.factor, factor)?;
    if product.is_zero() {
        return Ok(products);
    }
    let term = part.term.copy(alloc)?;
    products.push(Part {
        term,
        factor: product,
    })?;
    Ok(products)
}
