//! The quantified formulas of a fact, and what is kept of them.

ghost use Rattle.std.specs.Prelude.{◌≡◌, ◌+◌, ◌++◌, ◌≤◌, Some, length, map, slice_get, OnOk, IfOk};
ghost use Rattle.std.specs.List.{flat_map, range_with_len};
ghost use Rattle.esc_fact.specs.Base.{Quantified, formulas_in, quantified_in, whole};
ghost use Rattle.esc_fact.specs.Fact.{IsFact, formula_of};
ghost use Rattle.esc_rounds.specs.Origins.{origins_at, outermost};
ghost use Rattle.esc_standing.specs.Keeping.{IsBrought, Keeps, KeepsBrought, KeepsFormulas};
ghost use Rattle.esc_standing.specs.Keeping.{KeepsOne, marked, outer_atoms};

use crate::formulas::{KeptFormulas, place_of};
use esc_fact::{Base, Fact, quantified_at};
use esc_rounds::Kept;
use esc_term::{Copied, Formula, Head, Quant, Term, Terms};
use esc_trigger::triggers_of;
use sqlite_items::Items;
use std::alloc::{AllocError, Global};

/// The number after this one. There is none past the largest, as if memory were wanting.
fn next(number: u64) -> Result<u64, AllocError>
    ensures { IfOk result (λ n. n ≡ number + 1) }
{
    match number.checked_add(1) {
        Some(next) => Ok(next),
        None => Err(AllocError),
    }
}

/// The number is moved on by the quantified formulas in the formula.
#[cycle(pass)]
#[tactic(auto, using(crate::proofs::OutermostLevels::outermost_levels))]
fn pass(formula: &Formula, number: u64) -> Result<u64, AllocError>
    ensures { IfOk result (λ n. n ≡ number + length (outermost formula.now)) }
{
    match formula {
        Formula::True
        | Formula::False
        | Formula::Eq(_, _)
        | Formula::Less(_, _)
        | Formula::Distinct(_) => Ok(number),
        Formula::And(parts) | Formula::Or(parts) => pass_all(parts.as_slice(), number),
        Formula::Not(part) | Formula::LabelPos(_, part) | Formula::LabelNeg(_, part) => {
            pass(part.get(), number)
        }
        Formula::Implies(left, right) | Formula::Iff(left, right) => {
            let between = pass(left.get(), number)?;
            let after = pass(right.get(), between)?;
            Ok(after)
        }
        Formula::Forall(quant) | Formula::Exists(quant) => {
            let inside = next(number)?;
            let after = pass(&quant.get().body, inside)?;
            Ok(after)
        }
    }
}

/// The number is moved on by the quantified formulas in the formulas.
#[cycle(pass)]
fn pass_all(formulas: &[Formula], number: u64) -> Result<u64, AllocError>
    ensures { IfOk result (λ n. n ≡ number + length (flat_map outermost formulas.now)) }
{
    let mut passed = number;
    'formulas: for formula in formulas {
        passed = pass(formula, passed)?;
    }
    Ok(passed)
}

/// Keeps a formula that was met with this number, where it is not kept.
fn keep_one(
    alloc: Global,
    number: u64,
    outer: &Terms,
    formula: &Formula,
    universal: bool,
    quant: &Quant,
    depth: u64,
    formulas: &mut KeptFormulas,
) -> Result<(), AllocError>
    requires { whole (record { universal = universal; quant = quant.now; outer = 0 })
        ≡ formula.now }
    ensures { OnOk result (KeepsOne depth (record { number = number; outer = outer.now })
        formula.now formulas.old formulas.new) }
{
    if let Some(_) = place_of(formulas, formula) {
        return Ok(());
    }
    let kept = Kept {
        number,
        outer: outer.copied(alloc)?,
        universal,
        count: quant.count,
        triggers: triggers_of(alloc, quant)?,
        depth,
    };
    formulas.kept.push(kept)?;
    formulas.closed.push(formula.copy(alloc)?)?;
    Ok(())
}

/// Keeps the quantified formulas outside other ones, the first of which has the number. It gives
/// the number of the next quantified formula.
#[cycle(walk)]
#[tactic(auto, using(crate::proofs::WalkSteps::walking))]
fn walk(
    alloc: Global,
    formula: &Formula,
    number: u64,
    outer: &Terms,
    depth: u64,
    formulas: &mut KeptFormulas,
) -> Result<u64, AllocError>
    ensures passed { IfOk result (λ n. n ≡ number + length (outermost formula.now)) }
    ensures kept { OnOk result (Keeps depth (marked number outer.now (outermost formula.now))
        (outer_atoms formula.now) formulas.old formulas.new) }
{
    match formula {
        Formula::True
        | Formula::False
        | Formula::Eq(_, _)
        | Formula::Less(_, _)
        | Formula::Distinct(_) => Ok(number),
        Formula::And(parts) | Formula::Or(parts) => {
            walk_all(alloc, parts.as_slice(), number, outer, depth, formulas)
        }
        Formula::Not(part) | Formula::LabelPos(_, part) | Formula::LabelNeg(_, part) => {
            walk(alloc, part.get(), number, outer, depth, formulas)
        }
        Formula::Implies(left, right) | Formula::Iff(left, right) => {
            let between = walk(alloc, left.get(), number, outer, depth, formulas)?;
            let after = walk(alloc, right.get(), between, outer, depth, formulas)?;
            Ok(after)
        }
        Formula::Forall(quant) => {
            let quant = quant.get();
            keep_one(alloc, number, outer, formula, true, quant, depth, formulas)?;
            let after = pass(formula, number)?;
            Ok(after)
        }
        Formula::Exists(quant) => {
            let quant = quant.get();
            keep_one(alloc, number, outer, formula, false, quant, depth, formulas)?;
            let after = pass(formula, number)?;
            Ok(after)
        }
    }
}

/// Keeps those of formulas in order.
#[cycle(walk)]
fn walk_all(
    alloc: Global,
    parts: &[Formula],
    number: u64,
    outer: &Terms,
    depth: u64,
    formulas: &mut KeptFormulas,
) -> Result<u64, AllocError>
    ensures passed { IfOk result (λ n. n ≡ number + length (flat_map outermost parts.now)) }
    ensures kept { OnOk result
        (Keeps depth (marked number outer.now (flat_map outermost parts.now))
        (flat_map outer_atoms parts.now) formulas.old formulas.new) }
{
    let mut passed = number;
    'parts: for part in parts {
        passed = walk(alloc, part, passed, outer, depth, formulas)?;
    }
    Ok(passed)
}

/// Keeps the quantified formulas of a formula of the base, which is at this place.
fn keep_given(
    alloc: Global,
    base: &Base,
    place: u64,
    formula: &Formula,
    depth: u64,
    formulas: &mut KeptFormulas,
) -> Result<(), AllocError>
    requires within { place ≤ length base.now.background }
    requires there { slice_get (formulas_in base.now) place ≡ Some formula.now }
    ensures { OnOk result (Keeps depth (origins_at base.now place) (outer_atoms formula.now)
        formulas.old formulas.new) }
{
    let number = pass_all(&base.background.as_slice()[..place as usize], 0)?;
    let outer = Items::new(alloc);
    walk(alloc, formula, number, &outer, depth, formulas)?;
    Ok(())
}

/// Keeps the quantified formulas of what the quantified formula with the number brings, with these
/// terms for all variables of its body.
fn keep_brought(
    alloc: Global,
    formula: &Formula,
    number: u64,
    outer: &Terms,
    inside: &Terms,
    depth: u64,
    formulas: &mut KeptFormulas,
) -> Result<(), AllocError>
    requires { IsBrought outer.now inside.now formula.now }
    ensures { OnOk result (KeepsBrought depth number outer.now inside.now formula.now
        formulas.old formulas.new) }
{
    let Formula::Implies(left, right) = formula else {
        unreachable!()
    };
    walk(alloc, left.get(), number, outer, depth, formulas)?;
    let first = next(number)?;
    walk(alloc, right.get(), first, inside, depth, formulas)?;
    Ok(())
}

/// How many variables the quantified formula with this number binds.
fn count_of(base: &Base, number: u64) -> u64
    requires { (q : Quantified) × (slice_get (quantified_in base.now) number ≡ Some q) }
    ensures { (q : Quantified) → slice_get (quantified_in base.now) number ≡ Some q
        → result ≡ q.quant.count }
{
    match quantified_at(base, number) {
        Formula::Forall(quant) => quant.get().count,
        Formula::Exists(quant) => quant.get().count,
        _ => unreachable!(),
    }
}

/// The outer terms, and then terms of its own for so many variables of the quantified formula with
/// this number.
fn with_own_terms(
    alloc: Global,
    number: u64,
    count: u64,
    outer: &Terms,
) -> Result<Terms, AllocError>
    ensures { IfOk result (λ ts. ts ≡ outer.now
        ++ map (λ i. Term.App (Head.Skolem number i) outer.now) (range_with_len 0 count)) }
{
    let mut terms = outer.copied(alloc)?;
    'places: for i in 0..count {
        terms.push(Term::App(Head::Skolem(number, i), outer.copied(alloc)?))?;
    }
    Ok(terms)
}

/// Keeps the quantified formulas of a fact with this formula and this depth, where they are not
/// kept. It fails only where memory is wanting.
pub(crate) fn keep_formulas(
    alloc: Global,
    base: &Base,
    fact: &Fact,
    formula: &Formula,
    depth: u64,
    formulas: &mut KeptFormulas,
) -> Result<(), AllocError>
    requires is_fact { IsFact base.now fact.now }
    requires named { formula_of base.now fact.now ≡ Some formula.now }
    ensures { OnOk result (KeepsFormulas base.now fact.now depth formulas.old formulas.new) }
{
    match fact {
        Fact::Given(place) => keep_given(alloc, base, *place, formula, depth, formulas)?,
        Fact::NegGoal => {
            let place = base.background.len() as u64;
            keep_given(alloc, base, place, formula, depth, formulas)?;
        }
        Fact::Inst {
            number,
            outer,
            terms,
        } => {
            let mut inside = outer.copied(alloc)?;
            inside.append(terms.copied(alloc)?)?;
            keep_brought(alloc, formula, *number, outer, &inside, depth, formulas)?;
        }
        Fact::Skolem { number, outer } => {
            let count = count_of(base, *number);
            let inside = with_own_terms(alloc, *number, count, outer)?;
            keep_brought(alloc, formula, *number, outer, &inside, depth, formulas)?;
        }
        Fact::Map1(_, _, _) => {}
        Fact::Map2(_, _, _, _) => {}
    }
    Ok(())
}
