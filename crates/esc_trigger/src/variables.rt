//! The variables in terms.
//!
//! A depth is the number of variables that are bound inside at a place. It is counted up to 2^64
//! alone, since no `u64` names a variable from there on.

ghost use Rattle.std.specs.Prelude.{◌≡◌, ℕ, ◌-◌, ◌++◌, ◌^◌, map, min, IfOk, OnOk};
ghost use Rattle.std.specs.List.{flat_map};
ghost use Rattle.esc_trigger.specs.Variables.{has_all_below, has_number, holds_all, lowered};
ghost use Rattle.esc_trigger.specs.Variables.{variables_of};

use esc_term::{Term, Terms};
use sqlite_items::Items;
use std::alloc::{AllocError, Global};

/// Variables by their numbers.
pub(crate) type Numbers = Items<u64>;

#[cycle(add_variables)]
#[tactic(auto, using(crate::proofs::TermLevels::levels))]
fn add_variables(term: &Term, found: &mut Numbers) -> Result<(), AllocError>
    ensures { OnOk result (found.new ≡ found.old ++ variables_of term.now) }
{
    match term {
        Term::Num(_) => Ok(()),
        Term::Var(k) => found.push(*k),
        Term::App(_, args) => add_all_variables(args.as_slice(), found),
    }
}

#[cycle(add_variables)]
fn add_all_variables(terms: &[Term], found: &mut Numbers) -> Result<(), AllocError>
    ensures { OnOk result (found.new ≡ found.old ++ flat_map variables_of terms.now) }
{
    for term in terms {
        add_variables(term, found)?;
    }
    Ok(())
}

/// The variables of a term, from the front.
pub(crate) fn variables(alloc: Global, term: &Term) -> Result<Numbers, AllocError>
    ensures { IfOk result (λ numbers. numbers ≡ variables_of term.now) }
{
    let mut found = Items::new(alloc);
    add_variables(term, &mut found)?;
    Ok(found)
}

/// Whether the terms hold all variables of a quantifier with so many.
pub(crate) fn holds_all(alloc: Global, count: u64, terms: &[Term]) -> Result<bool, AllocError>
    ensures { IfOk result (λ b. b ≡ holds_all count terms.now) }
{
    let mut found = Items::new(alloc);
    add_all_variables(terms, &mut found)?;
    Ok(has_all_below(count, found.as_slice()))
}

/// Whether the number stands among the numbers.
pub(crate) fn has_number(numbers: &[u64], number: u64) -> bool
    ensures { result ≡ has_number numbers.now number }
{
    numbers.iter().any(|other| *other == number)
}

/// Whether each number below this one stands among the numbers.
#[tactic(auto, using(crate::proofs::Numbers::below))]
pub(crate) fn has_all_below(count: u64, numbers: &[u64]) -> bool
    ensures { result ≡ has_all_below count numbers.now }
{
    'numbers: for number in 0..count {
        if !has_number(numbers, number) {
            return false;
        }
    }
    true
}

/// The term as it reads outside the quantifiers of so many variables.
#[cycle(lower)]
#[tactic(auto, using(crate::proofs::TermLevels::levels))]
pub(crate) fn lower(alloc: Global, term: &Term, depth: u128) -> Result<Term, AllocError>
    ensures { IfOk result (λ t. (d : ℕ) → min d (2 ^ 64) ≡ depth → t ≡ lowered d term.now) }
{
    match term {
        Term::Num(n) => Ok(Term::Num(*n)),
        Term::Var(k) => Ok(Term::Var(lower_variable(*k, depth))),
        Term::App(head, args) => Ok(Term::App(*head, lower_all(alloc, args.as_slice(), depth)?)),
    }
}

#[cycle(lower)]
fn lower_all(alloc: Global, terms: &[Term], depth: u128) -> Result<Terms, AllocError>
    ensures { IfOk result (λ ts. (d : ℕ) → min d (2 ^ 64) ≡ depth
        → ts ≡ map (lowered d) terms.now) }
{
    let mut done = Items::new(alloc);
    for term in terms {
        done.push(lower(alloc, term, depth)?)?;
    }
    Ok(done)
}

/// The number of a variable outside the quantifiers of so many, and 0 for those that are bound
/// inside.
pub(crate) fn lower_variable(k: u64, depth: u128) -> u64
    ensures { (d : ℕ) → min d (2 ^ 64) ≡ depth → result ≡ k - d }
{
    u128::from(k).saturating_sub(depth) as u64
}
