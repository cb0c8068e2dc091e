//! The terms of a quantified formula's body from which triggers are inferred, found in one walk.

ghost use Rattle.std.specs.Prelude.{◌≡◌, ℕ, ◌+◌, ◌^◌, min, false, not, ◌&&◌, ◌||◌, IfOk, OnOk};
ghost use Rattle.std.specs.List.{flat_map, fold, list_all, list_any};
ghost use Rattle.esc_term.specs.declared.term.Term.TheVariants as term;
ghost use Rattle.esc_term.specs.Term.{with_once};
ghost use Rattle.esc_cover.specs.Classes.{has};
ghost use Rattle.esc_trigger.specs.Candidates.{candidates};
ghost use Rattle.esc_trigger.specs.Variables.{calculates, is_clear, is_sum_head, lowered};
ghost use Rattle.esc_trigger.specs.WalkInside.{candidates_in, clear_candidates, mentions};
ghost use Rattle.esc_trigger.specs.WalkInside.{with_candidate};

use crate::variables::{lower, lower_variable};
use esc_term::{Formula, Head, Quant, Term, TermSet, Terms, deeper};
use std::alloc::{AllocError, Global};

/// What stands in a term, or in terms together.
#[derive(Clone, Copy)]
pub(crate) struct Contents {
    /// No variable is bound inside.
    pub clear: bool,
    /// A variable of the quantifier stands there.
    pub mentions: bool,
    /// A sum, difference or product stands there.
    pub calculates: bool,
}

impl Contents {
    /// The contents of no terms.
    const NONE: Contents = Contents {
        clear: true,
        mentions: false,
        calculates: false,
    };

    /// The contents of both.
    fn with(self, other: Contents) -> Contents
        ensures clear { result.clear ≡ (self.clear && other.clear) }
        ensures mentions { result.mentions ≡ (self.mentions || other.mentions) }
        ensures calculates { result.calculates ≡ (self.calculates || other.calculates) }
    {
        Contents {
            clear: self.clear && other.clear,
            mentions: self.mentions || other.mentions,
            calculates: self.calculates || other.calculates,
        }
    }

    /// The contents of an application of the head to terms with these.
    fn under(self, head: Head) -> Contents
        ensures clear { result.clear ≡ self.clear }
        ensures mentions { result.mentions ≡ self.mentions }
        ensures calculates { result.calculates ≡ (is_sum_head head || self.calculates) }
    {
        Contents {
            calculates: is_sum_head(head) || self.calculates,
            ..self
        }
    }

    /// Whether an application with these may be a candidate.
    fn are_eligible(self) -> bool
        ensures { result ≡ (self.clear && self.mentions && not self.calculates) }
    {
        self.clear && self.mentions && !self.calculates
    }
}

fn is_sum_head(head: Head) -> bool
    ensures { result ≡ is_sum_head head }
{
    match head {
        Head::Name(_) | Head::Skolem(_, _) => false,
        Head::Add | Head::Sub | Head::Mul => true,
    }
}

fn contains(terms: &[Term], term: &Term) -> bool
    ensures { result ≡ has terms.now term.now }
{
    terms.iter().any(|other| term == other)
}

/// Adds the term, unless it is exempt or is there.
#[tactic(auto, unfolding(crate::specs::WalkInside::with_candidate))]
fn add_candidate(term: Term, quant: &Quant, found: &mut TermSet) -> Result<(), AllocError>
    ensures { OnOk result (found.new ≡ with_candidate quant.now found.old term) }
{
    if contains(quant.exempt.as_slice(), &term) {
        return Ok(());
    }
    found.add(term)
}

/// Adds the candidates in the term that are not there, and tells what stands in it.
#[cycle(add_candidates)]
#[tactic(auto, using(crate::proofs::WalkLevels::walk_levels))]
fn add_candidates(
    alloc: Global,
    term: &Term,
    quant: &Quant,
    depth: u128,
    found: &mut TermSet,
) -> Result<Contents, AllocError>
    ensures clear { IfOk result (λ contents. (d : ℕ) → min d (2 ^ 64) ≡ depth
        → contents.clear ≡ is_clear d term.now) }
    ensures mentions { IfOk result
        (λ contents. (d : ℕ) → min d (2 ^ 64) ≡ depth
        → contents.mentions ≡ mentions quant.now.count d term.now) }
    ensures calculates { IfOk result (λ contents. contents.calculates ≡ calculates term.now) }
    ensures added { OnOk result ((d : ℕ) → min d (2 ^ 64) ≡ depth
        → found.new ≡ fold with_once found.old (candidates_in quant.now d term.now)) }
{
    match term {
        Term::Num(_) => Ok(Contents::NONE),
        Term::Var(k) => Ok(variable_contents(*k, quant.count, depth)),
        Term::App(head, args) => {
            let contents = add_all_candidates(alloc, args.as_slice(), quant, depth, found)?;
            let contents = contents.under(*head);
            if contents.are_eligible() {
                add_candidate(lower(alloc, term, depth)?, quant, found)?;
            }
            Ok(contents)
        }
    }
}

#[cycle(add_candidates)]
fn add_all_candidates(
    alloc: Global,
    terms: &[Term],
    quant: &Quant,
    depth: u128,
    found: &mut TermSet,
) -> Result<Contents, AllocError>
    ensures clear { IfOk result (λ contents. (d : ℕ) → min d (2 ^ 64) ≡ depth
        → contents.clear ≡ list_all (is_clear d) terms.now) }
    ensures mentions { IfOk result
        (λ contents. (d : ℕ) → min d (2 ^ 64) ≡ depth
        → contents.mentions ≡ list_any (mentions quant.now.count d) terms.now) }
    ensures calculates { IfOk result
        (λ contents. contents.calculates ≡ list_any calculates terms.now) }
    ensures added { OnOk result ((d : ℕ) → min d (2 ^ 64) ≡ depth
        → found.new ≡ fold with_once found.old (flat_map (candidates_in quant.now d) terms.now)) }
{
    let mut all = Contents::NONE;
    for term in terms {
        all = all.with(add_candidates(alloc, term, quant, depth, found)?);
    }
    Ok(all)
}

/// What a variable is where so many are bound inside.
#[tactic(auto, using(crate::proofs::WalkLevels::walk_levels))]
fn variable_contents(k: u64, count: u64, depth: u128) -> Contents
    ensures clear { (d : ℕ) → min d (2 ^ 64) ≡ depth → result.clear ≡ is_clear d (term.Var k) }
    ensures mentions { (d : ℕ) → min d (2 ^ 64) ≡ depth
        → result.mentions ≡ mentions count d (term.Var k) }
    ensures calculates { result.calculates ≡ false }
{
    Contents {
        clear: depth <= u128::from(k),
        mentions: lower_variable(k, depth) < count,
        calculates: false,
    }
}

/// Adds the candidates in the atoms of the formula that are not there.
#[cycle(add_clear)]
#[tactic(auto, using(crate::proofs::ClearLevels::clear_levels))]
fn add_clear(
    alloc: Global,
    formula: &Formula,
    quant: &Quant,
    depth: u128,
    found: &mut TermSet,
) -> Result<(), AllocError>
    ensures { OnOk result ((d : ℕ) → min d (2 ^ 64) ≡ depth
        → found.new ≡ fold with_once found.old (clear_candidates quant.now formula.now d)) }
{
    match formula {
        Formula::True | Formula::False => Ok(()),
        Formula::And(parts) | Formula::Or(parts) => {
            add_all_clear(alloc, parts.as_slice(), quant, depth, found)
        }
        Formula::Not(part) | Formula::LabelPos(_, part) | Formula::LabelNeg(_, part) => {
            add_clear(alloc, part.get(), quant, depth, found)
        }
        Formula::Implies(left, right) | Formula::Iff(left, right) => {
            add_clear(alloc, left.get(), quant, depth, found)?;
            add_clear(alloc, right.get(), quant, depth, found)
        }
        Formula::Forall(inner) | Formula::Exists(inner) => {
            add_inner(alloc, inner.get(), quant, depth, found)
        }
        Formula::Eq(left, right) | Formula::Less(left, right) => {
            add_candidates(alloc, left, quant, depth, found)?;
            add_candidates(alloc, right, quant, depth, found)?;
            Ok(())
        }
        Formula::Distinct(terms) => {
            add_all_candidates(alloc, terms.as_slice(), quant, depth, found)?;
            Ok(())
        }
    }
}

#[cycle(add_clear)]
fn add_all_clear(
    alloc: Global,
    formulas: &[Formula],
    quant: &Quant,
    depth: u128,
    found: &mut TermSet,
) -> Result<(), AllocError>
    ensures { OnOk result ((d : ℕ) → min d (2 ^ 64) ≡ depth
        → found.new ≡ fold with_once found.old
        (flat_map (λ f. clear_candidates quant.now f d) formulas.now)) }
{
    for formula in formulas {
        add_clear(alloc, formula, quant, depth, found)?;
    }
    Ok(())
}

/// Only the body of a quantifier inside is looked at.
#[cycle(add_clear)]
fn add_inner(
    alloc: Global,
    inner: &Quant,
    quant: &Quant,
    depth: u128,
    found: &mut TermSet,
) -> Result<(), AllocError>
    ensures { OnOk result ((d : ℕ) → min d (2 ^ 64) ≡ depth
        → found.new ≡ fold with_once found.old
        (clear_candidates quant.now inner.now.body (d + inner.now.count))) }
{
    add_clear(alloc, &inner.body, quant, deeper(depth, inner.count), found)
}

/// The terms from which triggers are inferred, each once, in the order of their first occurrence.
#[tactic(auto, unfolding(crate::specs::WalkInside::clear_candidates))]
pub(crate) fn candidates(alloc: Global, quant: &Quant) -> Result<Terms, AllocError>
    ensures { IfOk result (λ terms. terms ≡ candidates quant.now) }
{
    let mut found = TermSet::new(alloc);
    add_clear(alloc, &quant.body, quant, 0, &mut found)?;
    found.into_terms(alloc)
}
