//! The form of a term.

ghost use Rattle.std.specs.Prelude.{◌≡◌, [], map, IfOk};
ghost use Rattle.std.specs.List.{flat_map};
ghost use Rattle.esc_term.specs.declared.term.Head.TheVariants.{Sub};
ghost use Rattle.esc_frac.specs.Rational.{whole};
ghost use Rattle.esc_linear.specs.Forms.{applied, constant_form, form as form_by_rules, opaque_form};
ghost use Rattle.esc_linear.specs.Laws.{IsLin};
ghost use Rattle.esc_linear.specs.Steps.{Yields, combined_steps, looks_into as is_looked_into, steps};

use crate::form::{Form, FormJam};
use crate::product::times;
use crate::sum::{subtract, total};
use esc_frac::Frac;
use esc_term::{Head, Term};
use sqlite_items::Items;
use std::alloc::Global;

type Forms = Items<Form>;

/// The linear form of the term. A numeral is a constant. The forms of the arguments of a sum are
/// added from the left, `(- t)` is 0 minus t, and `(- s t)` subtracts. In a product the constants
/// are multiplied from the left, and the form that is no constant by their product. A product with
/// more than one such form is opaque, as is any other term: it stands in its form with coefficient
/// 1. `Spill` exactly where a step of this is out of range.
pub fn form_of(alloc: Global, term: &Term) -> Result<Form, FormJam>
    ensures exact { Yields result (steps term.now) (form_by_rules term.now) }
    ensures linear { IfOk result (IsLin term.now) }
{
    evaluated(alloc, term)
}

#[cycle(evaluated)]
fn evaluated(alloc: Global, term: &Term) -> Result<Form, FormJam>
    ensures { Yields result (steps term.now) (form_by_rules term.now) }
{
    match term {
        Term::Num(n) => Ok(numeral(alloc, n)),
        Term::Var(_) => opaque(alloc, term),
        Term::App(head, args) => {
            if !looks_into(*head, args.len()) {
                return opaque(alloc, term);
            }
            let forms = forms_of(alloc, args.as_slice())?;
            combined(alloc, term, *head, forms.as_slice())
        }
    }
}

#[cycle(evaluated)]
fn forms_of(alloc: Global, terms: &[Term]) -> Result<Forms, FormJam>
    ensures { Yields result (flat_map steps terms.now) (map form_by_rules terms.now) }
{
    let mut forms = Items::new(alloc);
    'terms: for term in terms {
        forms.push(evaluated(alloc, term)?)?;
    }
    Ok(forms)
}

fn looks_into(head: Head, count: usize) -> bool
    ensures { result ≡ is_looked_into head count }
{
    match head {
        Head::Add | Head::Mul => true,
        Head::Sub => count == 1 || count == 2,
        Head::Name(_) | Head::Skolem(_, _) => false,
    }
}

// The form of the term, an application of the head, by the forms of its arguments.
fn combined(alloc: Global, term: &Term, head: Head, forms: &[Form]) -> Result<Form, FormJam>
    ensures { Yields result (combined_steps head forms.now)
        (applied head (opaque_form term.now) forms.now) }
{
    match head {
        Head::Add => total(alloc, forms),
        Head::Sub => difference(alloc, term, forms),
        Head::Mul => times(alloc, term, forms),
        Head::Name(_) | Head::Skolem(_, _) => opaque(alloc, term),
    }
}

fn difference(alloc: Global, term: &Term, forms: &[Form]) -> Result<Form, FormJam>
    ensures { Yields result (combined_steps Sub forms.now)
        (applied Sub (opaque_form term.now) forms.now) }
{
    match forms {
        [taken] => subtract(alloc, Form::constant(alloc, Frac::whole(0)), taken),
        [from, taken] => subtract(alloc, from.copy(alloc)?, taken),
        _ => opaque(alloc, term),
    }
}

fn numeral(alloc: Global, number: &i64) -> Form
    ensures { result ≡ constant_form (whole number.now) }
{
    Form::constant(alloc, Frac::whole(*number))
}

fn opaque(alloc: Global, term: &Term) -> Result<Form, FormJam>
    ensures { Yields result [] (opaque_form term.now) }
{
    Ok(Form::opaque(alloc, term)?)
}
