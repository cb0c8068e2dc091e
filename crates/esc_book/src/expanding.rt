//! What the formulas of entries expand to.

ghost use Rattle.std.specs.Prelude.{◌≡◌, ◌+◌, ◌∷◌, [], IfOk, Some, List, length, slice_get};
ghost use Rattle.std.specs.Prelude.{not, true, false};
ghost use Rattle.std.specs.List.{flat_map};
ghost use Rattle.esc_term.specs.declared.term.Term.{Term};
ghost use Rattle.esc_term.specs.declared.formula.Formula.{Formula};
ghost use Rattle.esc_term.specs.declared.formula.Formula.TheOpen.{Formula-F};
ghost use Rattle.esc_term.specs.declared.formula.Formula.TheViews.{out-Formula};
ghost use Rattle.esc_cover.specs.Atoms.{pair_equations};
ghost use Rattle.esc_egraph.specs.Graph.{Graph};
ghost use Rattle.esc_clause.specs.Expansion.{OneOfEach, expanded_form, from_place};
ghost use Rattle.esc_book.specs.Atom.{expansion_of};
ghost use Rattle.esc_book.specs.Book.{IsPage, heads_of};
ghost use Rattle.esc_book.specs.JudgingInside.{AreBetween};
ghost use Rattle.esc_book.specs.ReadingInside.{AreThere, begin_at, both_from, expanded_to};
ghost use Rattle.esc_book.specs.ReadingInside.{settled_as};

use crate::entry::{Entry, Kind};
use crate::expanded::Expanded;
use crate::group::{Group, further};
use crate::page::{begin_of, next_of, parts_of};
use crate::writing::behind_pairs;
use esc_clause::{Occurrence, Occurrences};
use sqlite_items::Items;
use std::alloc::{AllocError, Global};

/// What the formula of an entry expands to, where its occurrence is this one.
pub(crate) fn expanded_entry(
    alloc: Global,
    page: &[Entry],
    index: usize,
    at: Occurrence,
) -> Result<Expanded, AllocError>
    ensures { IfOk result (λ e. (g : Graph) (f s : Formula) → IsPage g f page.now
        → slice_get (heads_of f) index ≡ Some s → begin_at (heads_of f) index ≡ at.place
        → expansion_of e ≡ expanded_form at (out-Formula s) at.positive) }
{
    let Some(entry) = page.get(index) else {
        return Ok(Expanded::Literal);
    };
    let first = index + 1;
    let next = entry.next;
    let sign = at.positive;
    match &entry.kind {
        Kind::Constant(is_true) => {
            if *is_true {
                Ok(settled(alloc, sign))
            } else {
                Ok(settled(alloc, !sign))
            }
        }
        Kind::Conjunction => parts_from(alloc, page, first, next, at.fact, sign, sign),
        Kind::Disjunction => parts_from(alloc, page, first, next, at.fact, sign, !sign),
        Kind::Negation => parts_from(alloc, page, first, next, at.fact, !sign, true),
        Kind::Labelled => parts_from(alloc, page, first, next, at.fact, sign, true),
        Kind::Implication => implied(alloc, page, first, at.fact, sign),
        Kind::Equivalence => equivalent(alloc, page, first, at.fact, sign),
        Kind::Distinction(group) => distinct(alloc, group.get(), at),
        Kind::Equation(_, _) => Ok(Expanded::Literal),
        Kind::Order(_, _) => Ok(Expanded::Literal),
        Kind::Quantified(_) => Ok(Expanded::Literal),
    }
}

/// All of nothing, or what cannot be.
fn settled(alloc: Global, holds: bool) -> Expanded
    ensures { expansion_of result ≡ settled_as holds }
{
    if holds {
        Expanded::AllOf(Occurrences::new(alloc))
    } else {
        Expanded::Never
    }
}

/// All of these occurrences, or one of them.
fn several(alloc: Global, parts: Occurrences, all: bool) -> Result<Expanded, AllocError>
    ensures { IfOk result (λ e. expansion_of e ≡ expanded_to all parts) }
{
    if all {
        return Ok(Expanded::AllOf(parts));
    }
    let mut clauses = Items::new(alloc);
    clauses.push(parts)?;
    Ok(Expanded::OneOfEach(clauses))
}

/// All of the formulas whose entries stand side by side, or one of them, with one sign.
fn parts_from(
    alloc: Global,
    page: &[Entry],
    from: usize,
    to: usize,
    fact: u64,
    positive: bool,
    all: bool,
) -> Result<Expanded, AllocError>
    ensures { IfOk result (λ e. (g : Graph) (f : Formula) (ps : List Formula)
        → IsPage g f page.now → AreBetween (heads_of f) from to ps
        → expansion_of e
        ≡ expanded_to all (from_place fact (begin_at (heads_of f) from) positive ps)) }
{
    let parts = parts_of(alloc, page, from, to, fact, positive)?;
    several(alloc, parts, all)
}

/// The occurrences of two formulas whose entries stand side by side, each with its sign.
fn both_parts(
    alloc: Global,
    page: &[Entry],
    from: usize,
    fact: u64,
    left: bool,
    right: bool,
) -> Result<Occurrences, AllocError>
    ensures { IfOk result (λ parts. (g : Graph) (f p q : Formula) → IsPage g f page.now
        → AreThere (heads_of f) from (p ∷ q ∷ [])
        → parts ≡ both_from fact (begin_at (heads_of f) from) left right p) }
{
    let second = next_of(page, from);
    let mut parts = Occurrences::new(alloc);
    parts.push(Occurrence {
        fact,
        place: begin_of(page, from),
        positive: left,
    })?;
    parts.push(Occurrence {
        fact,
        place: begin_of(page, second),
        positive: right,
    })?;
    Ok(parts)
}

/// What an implication expands to, by its sign.
fn implied(
    alloc: Global,
    page: &[Entry],
    from: usize,
    fact: u64,
    sign: bool,
) -> Result<Expanded, AllocError>
    ensures { IfOk result (λ e. (g : Graph) (f p q : Formula) → IsPage g f page.now
        → AreThere (heads_of f) from (p ∷ q ∷ [])
        → expansion_of e ≡ expanded_to (not sign)
        (both_from fact (begin_at (heads_of f) from) (not sign) sign p)) }
{
    let parts = both_parts(alloc, page, from, fact, !sign, sign)?;
    several(alloc, parts, !sign)
}

/// What an equivalence expands to, by its sign.
fn equivalent(
    alloc: Global,
    page: &[Entry],
    from: usize,
    fact: u64,
    sign: bool,
) -> Result<Expanded, AllocError>
    ensures { IfOk result (λ e. (g : Graph) (f p q : Formula) → IsPage g f page.now
        → AreThere (heads_of f) from (p ∷ q ∷ [])
        → expansion_of e ≡ OneOfEach
        (both_from fact (begin_at (heads_of f) from) (not sign) true p
        ∷ both_from fact (begin_at (heads_of f) from) sign false p ∷ [])) }
{
    let mut clauses = Items::new(alloc);
    clauses.push(both_parts(alloc, page, from, fact, !sign, true)?)?;
    clauses.push(both_parts(alloc, page, from, fact, sign, false)?)?;
    Ok(Expanded::OneOfEach(clauses))
}

/// What a distinction expands to.
fn distinct(alloc: Global, group: &Group, at: Occurrence) -> Result<Expanded, AllocError>
    ensures { IfOk result (λ e. (ts : List Term) → length ts ≡ length group.now
        → expansion_of e ≡ expanded_form at (Formula-F.Distinct ts) at.positive) }
{
    if at.positive {
        return Ok(Expanded::Literal);
    }
    let from = further(at.place, 1)?;
    let parts = pairs_from(alloc, group.nodes().len(), at.fact, from)?;
    several(alloc, parts, false)
}

/// The occurrences of the pairs of so many terms, which begin at a place.
fn pairs_from(alloc: Global, count: usize, fact: u64, from: u64) -> Result<Occurrences, AllocError>
    ensures { IfOk result (λ parts. (ts : List Term) → length ts ≡ count
        → parts ≡ from_place fact from true (pair_equations ts)) }
{
    let end = behind_pairs(from, count)?;
    let mut parts = Occurrences::new(alloc);
    'pairs: for place in from..end {
        parts.push(Occurrence {
            fact,
            place,
            positive: true,
        })?;
    }
    Ok(parts)
}
