//! The patterns that a quantified formula has with it.

ghost use Rattle.std.specs.Prelude.{◌≡◌, IfOk};
ghost use Rattle.std.specs.List.{list_all};
ghost use Rattle.esc_trigger.specs.Candidates.{is_application};
ghost use Rattle.esc_trigger.specs.Patterns.{is_used, used_patterns};

use crate::triggers::Triggers;
use crate::variables::holds_all;
use esc_term::{Copied, Quant, Term};
use sqlite_items::Items;
use std::alloc::{AllocError, Global};

fn is_application(term: &Term) -> bool
    ensures { result ≡ is_application term.now }
{
    match term {
        Term::Num(_) | Term::Var(_) => false,
        Term::App(_, _) => true,
    }
}

fn are_applications(terms: &[Term]) -> bool
    ensures { result ≡ list_all is_application terms.now }
{
    terms.iter().all(|term| is_application(term))
}

/// Whether the pattern holds all variables of its quantifier, and is of applications alone.
fn is_used(alloc: Global, quant: &Quant, pattern: &[Term]) -> Result<bool, AllocError>
    ensures { IfOk result (λ b. b ≡ is_used quant.now pattern.now) }
{
    if !are_applications(pattern) {
        return Ok(false);
    }
    holds_all(alloc, quant.count, pattern)
}

/// The patterns of a formula that can be used, in order.
pub(crate) fn used_patterns(alloc: Global, quant: &Quant) -> Result<Triggers, AllocError>
    ensures { IfOk result (λ list. list ≡ used_patterns quant.now) }
{
    let mut used = Items::new(alloc);
    for pattern in quant.patterns.as_slice() {
        if is_used(alloc, quant, pattern.as_slice())? {
            used.push(pattern.copied(alloc)?)?;
        }
    }
    Ok(used)
}
