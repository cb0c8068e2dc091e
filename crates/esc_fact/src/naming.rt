//! The formula of a fact.

ghost use Rattle.std.specs.Prelude.{◌≡◌, ◌+◌, ◌++◌, Some, length, map, IfOk, IsTrue};
ghost use Rattle.std.specs.List.{list_all, range_with_len};
ghost use Rattle.esc_term.specs.Formula.{binds, substituted};
ghost use Rattle.esc_term.specs.Term.{is_ground};
ghost use Rattle.esc_fact.specs.Base.{Quantified, whole};
ghost use Rattle.esc_fact.specs.Fact.{IsFact, brings, formula_of, kept_of, select, store};
ghost use Rattle.esc_fact.specs.Fact.{written_of};
ghost use Rattle.esc_fact.specs.Legal.{IsClosedBase};
ghost use Rattle.esc_fact.specs.declared.fact.Fact.TheVariants as made;

use crate::base::Base;
use crate::fact::Fact;
use crate::quantified::quantified_at;
use esc_term::{Copied, Formula, Head, Quant, Sym, Term, Terms, substitute, with_room};
use sqlite_items::Boxed;
use std::alloc::{AllocError, Global};

/// The formula that says that this one fails.
fn not(alloc: Global, formula: Formula) -> Result<Formula, AllocError>
    ensures { IfOk result (λ f. f ≡ Formula.Not formula) }
{
    Ok(Formula::Not(Boxed::new(alloc, formula)?))
}

fn implies(alloc: Global, left: Formula, right: Formula) -> Result<Formula, AllocError>
    ensures { IfOk result (λ f. f ≡ Formula.Implies left right) }
{
    let left = Boxed::new(alloc, left)?;
    Ok(Formula::Implies(left, Boxed::new(alloc, right)?))
}

/// What holds brings the part, or what fails brings that the part fails.
fn bring(alloc: Global, holds: bool, formula: Formula, part: Formula) -> Result<Formula, AllocError>
    ensures { IfOk result (λ f. f ≡ brings holds formula part) }
{
    if holds {
        return implies(alloc, formula, part);
    }
    let formula = not(alloc, formula)?;
    let part = not(alloc, part)?;
    implies(alloc, formula, part)
}

/// The terms of both lists, in order.
fn joined(alloc: Global, first: &Terms, second: &Terms) -> Result<Terms, AllocError>
    ensures { IfOk result (λ ts. ts ≡ first.now ++ second.now) }
{
    let mut all = first.copied(alloc)?;
    all.append(second.copied(alloc)?)?;
    Ok(all)
}

/// The formula at the outer terms brings its body at these terms too.
fn bring_body(
    alloc: Global,
    holds: bool,
    formula: &Formula,
    quant: &Quant,
    outer: &Terms,
    terms: &Terms,
) -> Result<Formula, AllocError>
    requires outer_ground { IsTrue (list_all is_ground outer.now) }
    requires ground { IsTrue (list_all is_ground terms.now) }
    requires formula_bound { IsTrue (binds formula.now (length outer.now)) }
    requires body_bound { IsTrue (binds quant.now.body (length outer.now + length terms.now)) }
    ensures { IfOk result (λ f. f
        ≡ brings holds (substituted outer.now formula.now)
        (substituted (outer.now ++ terms.now) quant.now.body)) }
{
    let closed = substitute(alloc, formula, outer)?;
    let all = joined(alloc, outer, terms)?;
    let part = substitute(alloc, &quant.body, &all)?;
    bring(alloc, holds, closed, part)
}

/// Whether a quantified formula speaks of all values.
fn is_universal(formula: &Formula) -> bool
    ensures { (q : Quantified) → whole q ≡ formula.now → result ≡ q.universal }
{
    matches!(formula, Formula::Forall(_))
}

/// What a quantified formula binds, and its body.
fn quant_of(formula: &Formula) -> &Quant
    requires { (q : Quantified) × (whole q ≡ formula.now) }
    ensures { (q : Quantified) → whole q ≡ formula.now → result.now ≡ q.quant }
{
    match formula {
        Formula::Forall(quant) => quant.get(),
        Formula::Exists(quant) => quant.get(),
        _ => unreachable!(),
    }
}

/// What the quantified formula with this number brings at these terms.
fn instance(
    alloc: Global,
    base: &Base,
    number: u64,
    outer: &Terms,
    terms: &Terms,
) -> Result<Formula, AllocError>
    requires closed { IsClosedBase base.now }
    requires is_fact { IsFact base.now (made.Inst number outer.now terms.now) }
    ensures { IfOk result (λ f. formula_of base.now
        (made.Inst number outer.now terms.now) ≡ Some f) }
{
    let formula = quantified_at(base, number);
    let quant = quant_of(formula);
    let holds = is_universal(formula);
    bring_body(alloc, holds, formula, quant, outer, terms)
}

/// Terms of its own for so many variables of the quantified formula with this number.
fn own_terms(alloc: Global, number: u64, count: u64, outer: &Terms) -> Result<Terms, AllocError>
    ensures { IfOk result (λ ts. ts
        ≡ map (λ i. Term.App (Head.Skolem number i) outer.now) (range_with_len 0 count)) }
{
    let mut terms = with_room(alloc, count as usize)?;
    'places: for i in 0..count {
        terms.push(Term::App(Head::Skolem(number, i), outer.copied(alloc)?))?;
    }
    Ok(terms)
}

/// What the quantified formula with this number brings at terms of its own.
fn skolem(alloc: Global, base: &Base, number: u64, outer: &Terms) -> Result<Formula, AllocError>
    requires closed { IsClosedBase base.now }
    requires is_fact { IsFact base.now (made.Skolem number outer.now) }
    ensures { IfOk result (λ f. formula_of base.now (made.Skolem number outer.now) ≡ Some f) }
{
    let formula = quantified_at(base, number);
    let quant = quant_of(formula);
    let terms = own_terms(alloc, number, quant.count, outer)?;
    let holds = !is_universal(formula);
    bring_body(alloc, holds, formula, quant, outer, &terms)
}

/// The value of the map at a place.
fn selected(alloc: Global, map: Term, place: &Term) -> Result<Term, AllocError>
    ensures { IfOk result (λ t. t ≡ select map place.now) }
{
    let mut args = with_room(alloc, 2)?;
    args.push(map)?;
    args.push(place.copy(alloc)?)?;
    Ok(Term::App(Head::Name(Sym::SELECT), args))
}

/// The map with a new value at a place.
fn stored(alloc: Global, map: &Term, place: &Term, value: &Term) -> Result<Term, AllocError>
    ensures { IfOk result (λ t. t ≡ store map.now place.now value.now) }
{
    let mut args = with_room(alloc, 3)?;
    args.push(map.copy(alloc)?)?;
    args.push(place.copy(alloc)?)?;
    args.push(value.copy(alloc)?)?;
    Ok(Term::App(Head::Name(Sym::STORE), args))
}

/// What the map with a new value has at its place.
fn written(alloc: Global, map: &Term, place: &Term, value: &Term) -> Result<Formula, AllocError>
    ensures { IfOk result (λ f. f ≡ written_of map.now place.now value.now) }
{
    let there = selected(alloc, stored(alloc, map, place, value)?, place)?;
    Ok(Formula::Eq(there, value.copy(alloc)?))
}

/// What the map with a new value has at another place.
fn kept(
    alloc: Global,
    map: &Term,
    place: &Term,
    value: &Term,
    other: &Term,
) -> Result<Formula, AllocError>
    ensures { IfOk result (λ f. f ≡ kept_of map.now place.now value.now other.now) }
{
    let now = selected(alloc, stored(alloc, map, place, value)?, other)?;
    let before = selected(alloc, map.copy(alloc)?, other)?;
    let mut parts = with_room(alloc, 2)?;
    parts.push(Formula::Eq(place.copy(alloc)?, other.copy(alloc)?))?;
    parts.push(Formula::Eq(now, before))?;
    Ok(Formula::Or(parts))
}

/// The formula that the fact names over the base. It fails only where memory is wanting.
pub fn formula_of(alloc: Global, base: &Base, fact: &Fact) -> Result<Formula, AllocError>
    requires closed { IsClosedBase base.now }
    requires is_fact { IsFact base.now fact.now }
    ensures { IfOk result (λ f. formula_of base.now fact.now ≡ Some f) }
{
    match fact {
        Fact::Given(k) => match base.background.get(*k as usize) {
            Some(formula) => formula.copy(alloc),
            None => unreachable!(),
        },
        Fact::NegGoal => match &base.negated {
            Some(formula) => formula.copy(alloc),
            None => unreachable!(),
        },
        Fact::Inst {
            number,
            outer,
            terms,
        } => instance(alloc, base, *number, outer, terms),
        Fact::Skolem { number, outer } => skolem(alloc, base, *number, outer),
        Fact::Map1(m, i, x) => written(alloc, m, i, x),
        Fact::Map2(m, i, x, j) => kept(alloc, m, i, x, j),
    }
}
