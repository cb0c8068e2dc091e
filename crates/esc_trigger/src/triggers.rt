//! Triggers: the patterns that can be used, or those that are inferred.

ghost use Rattle.std.specs.Prelude.{◌≡◌, ◌&&◌, if◌then◌else◌, not, map, nat_lt, [], ◌∷◌, IfOk};
ghost use Rattle.std.specs.Prelude.{OnOk};
ghost use Rattle.std.specs.List.{filter, flat_map, fold, list_any};
ghost use Rattle.esc_cover.specs.Classes.{has};
ghost use Rattle.esc_term.specs.Term.{subterms};
ghost use Rattle.esc_trigger.specs.Triggers.{inferred_triggers, is_least_of, is_proper_subterm};
ghost use Rattle.esc_trigger.specs.Triggers.{triggers, with_bringing};
ghost use Rattle.esc_trigger.specs.Variables.{has_number, holds_all, variables_of};

use crate::candidates::candidates;
use crate::patterns::used_patterns;
use crate::variables::{Numbers, has_all_below, has_number, holds_all, variables};
use esc_term::{Quant, Term, Terms};
use sqlite_items::Items;
use std::alloc::{AllocError, Global};

/// Terms that are to match together.
pub type Trigger = Items<Term>;

/// Each matches for itself.
pub type Triggers = Items<Trigger>;

/// Whether the part is the term or stands in it.
#[cycle(has_part)]
#[tactic(auto, using(crate::proofs::PartLevels::part_levels))]
fn has_part(term: &Term, part: &Term) -> bool
    ensures { result ≡ has (subterms term.now) part.now }
{
    match term {
        Term::Num(_) | Term::Var(_) => part == term,
        Term::App(_, args) => some_has_part(args.as_slice(), part) || part == term,
    }
}

#[cycle(has_part)]
fn some_has_part(terms: &[Term], part: &Term) -> bool
    ensures { result ≡ list_any (λ t. has (subterms t) part.now) terms.now }
{
    for term in terms {
        if has_part(term, part) {
            return true;
        }
    }
    false
}

/// Whether the part stands inside the term.
fn is_proper_subterm(part: &Term, term: &Term) -> bool
    ensures { result ≡ is_proper_subterm part.now term.now }
{
    has_part(term, part) && part != term
}

/// Whether none of the terms stands inside the term.
fn is_least_of(terms: &[Term], term: &Term) -> bool
    ensures { result ≡ is_least_of terms.now term.now }
{
    for part in terms {
        if is_proper_subterm(part, term) {
            return false;
        }
    }
    true
}

/// Those of the terms that hold all variables of a quantifier with so many.
fn full_terms(alloc: Global, count: u64, terms: &[Term]) -> Result<Terms, AllocError>
    ensures { IfOk result (λ full. full ≡ filter (λ t. holds_all count (t ∷ [])) terms.now) }
{
    let mut full = Items::new(alloc);
    for term in terms {
        let held = variables(alloc, term)?;
        if has_all_below(count, held.as_slice()) {
            full.push(term.copy(alloc)?)?;
        }
    }
    Ok(full)
}

/// The term alone.
fn single_trigger(alloc: Global, term: &Term) -> Result<Trigger, AllocError>
    ensures { IfOk result (λ trigger. trigger ≡ term.now ∷ []) }
{
    let mut trigger = Items::new(alloc);
    trigger.push(term.copy(alloc)?)?;
    Ok(trigger)
}

/// A trigger for each term in which no other stands.
fn least_triggers(alloc: Global, terms: &[Term]) -> Result<Triggers, AllocError>
    ensures { IfOk result (λ list. list
        ≡ map (λ t. t ∷ []) (filter (is_least_of terms.now) terms.now)) }
{
    let mut singles = Items::new(alloc);
    for term in terms {
        if is_least_of(terms, term) {
            singles.push(single_trigger(alloc, term)?)?;
        }
    }
    Ok(singles)
}

/// Whether some variable of the quantifier is among these and not among those that are held.
fn brings(count: u64, held: &[u64], variables: &[u64]) -> bool
    ensures { result ≡ list_any (λ k. nat_lt k count && not (has_number held.now k)) variables.now }
{
    variables
        .iter()
        .any(|k| *k < count && !has_number(held, *k))
}

/// Takes the term if it holds a variable of the quantifier that is not held.
#[tactic(auto, using(crate::proofs::TermLevels::held_more))]
fn take_bringing(
    alloc: Global,
    count: u64,
    term: &Term,
    taken: &mut Trigger,
    held: &mut Numbers,
) -> Result<(), AllocError>
    requires { held.old ≡ flat_map variables_of taken.old }
    ensures taken { OnOk result (taken.new ≡ with_bringing count taken.old term.now) }
    ensures held { OnOk result (held.new ≡ flat_map variables_of taken.new) }
{
    let more = variables(alloc, term)?;
    if !brings(count, held.as_slice(), more.as_slice()) {
        return Ok(());
    }
    held.append(more)?;
    taken.push(term.copy(alloc)?)
}

/// The terms that hold a variable which those before do not hold.
fn bringing_terms(alloc: Global, count: u64, terms: &[Term]) -> Result<Trigger, AllocError>
    ensures { IfOk result (λ taken. taken ≡ fold (with_bringing count) [] terms.now) }
{
    let mut taken = Items::new(alloc);
    let mut held = Items::new(alloc);
    for term in terms {
        take_bringing(alloc, count, term, &mut taken, &mut held)?;
    }
    Ok(taken)
}

/// One trigger of the terms, if they hold all variables.
fn if_full(alloc: Global, count: u64, terms: Trigger) -> Result<Triggers, AllocError>
    ensures { IfOk result (λ list. list ≡ (if holds_all count terms then terms ∷ [] else [])) }
{
    let mut built = Items::new(alloc);
    if holds_all(alloc, count, terms.as_slice())? {
        built.push(terms)?;
    }
    Ok(built)
}

/// The triggers without the patterns that stand with the formula.
fn inferred_triggers(alloc: Global, quant: &Quant) -> Result<Triggers, AllocError>
    ensures { IfOk result (λ list. list ≡ inferred_triggers quant.now) }
{
    let candidates = candidates(alloc, quant)?;
    let full = full_terms(alloc, quant.count, candidates.as_slice())?;
    let singles = least_triggers(alloc, full.as_slice())?;
    if !singles.is_empty() {
        return Ok(singles);
    }
    let bringing = bringing_terms(alloc, quant.count, candidates.as_slice())?;
    if_full(alloc, quant.count, bringing)
}

/// The triggers of a quantified formula: its patterns that can be used, or else what is inferred
/// from its body. It fails only where memory is wanting.
#[tactic(auto, unfolding(crate::specs::Triggers::triggers))]
pub fn triggers_of(alloc: Global, quantified: &Quant) -> Result<Triggers, AllocError>
    ensures { IfOk result (λ list. list ≡ triggers quantified.now) }
{
    let used = used_patterns(alloc, quantified)?;
    if !used.is_empty() {
        return Ok(used);
    }
    inferred_triggers(alloc, quantified)
}
