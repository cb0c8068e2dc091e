//! Where the quantified formulas of a base stand.

ghost use Rattle.std.specs.Prelude.{◌≡◌, ◌+◌, ◌<◌, ℕ, Some, length, slice_get, IfSome, IfNone};
ghost use Rattle.esc_fact.specs.Base.{Quantified, quantified_in, whole};
ghost use Rattle.esc_fact.specs.WalkInside.{wholes_in, wholes_under};

use crate::base::Base;
use esc_term::Formula;

/// The quantified formula at this place, or how far on it is.
#[cycle(find)]
#[tactic(auto, using(crate::proofs::Quantifiers::wholes_levels, crate::proofs::Places::joined))]
fn find<'a>(formula: &'a Formula, place: &mut u64) -> Option<&'a Formula>
    ensures found { IfSome result
        (λ f. (d : ℕ) → slice_get (wholes_under d formula.now) place.old ≡ Some f.now) }
    ensures passed { IfNone result
        ((d : ℕ) → length (wholes_under d formula.now) + place.new ≡ place.old) }
{
    match formula {
        Formula::True
        | Formula::False
        | Formula::Eq(_, _)
        | Formula::Less(_, _)
        | Formula::Distinct(_) => None,
        Formula::And(parts) | Formula::Or(parts) => find_in(parts.as_slice(), place),
        Formula::Not(part) | Formula::LabelPos(_, part) | Formula::LabelNeg(_, part) => {
            find(part.get(), place)
        }
        Formula::Implies(left, right) | Formula::Iff(left, right) => {
            if let Some(found) = find(left.get(), place) {
                return Some(found);
            }
            if let Some(found) = find(right.get(), place) {
                return Some(found);
            }
            None
        }
        Formula::Forall(quant) | Formula::Exists(quant) => {
            if *place == 0 {
                return Some(formula);
            }
            *place -= 1;
            find(&quant.get().body, place)
        }
    }
}

#[cycle(find)]
fn find_in<'a>(formulas: &'a [Formula], place: &mut u64) -> Option<&'a Formula>
    ensures found { IfSome result
        (λ f. (d : ℕ) → slice_get (wholes_in d formulas.now) place.old ≡ Some f.now) }
    ensures passed { IfNone result
        ((d : ℕ) → length (wholes_in d formulas.now) + place.new ≡ place.old) }
{
    'formulas: for formula in formulas {
        if let Some(found) = find(formula, place) {
            return Some(found);
        }
    }
    None
}

/// The quantified formula of the base with this number.
pub fn quantified_at(base: &Base, number: u64) -> &Formula
    requires { number < length (quantified_in base.now) }
    ensures { (q : Quantified) → slice_get (quantified_in base.now) number ≡ Some q
        → whole q ≡ result.now }
{
    let mut place = number;
    if let Some(found) = find_in(base.background.as_slice(), &mut place) {
        return found;
    }
    let Some(negated) = &base.negated else {
        unreachable!()
    };
    match find(negated, &mut place) {
        Some(found) => found,
        None => unreachable!(),
    }
}
