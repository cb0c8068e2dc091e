//! What is built of parts.

ghost use Rattle.std.specs.Prelude.{◌≡◌, IfOk, map};
ghost use Rattle.esc_read.specs.Reading.{Plain, give};
ghost use Rattle.esc_form.specs.Formulas.{bound, holds, joined, labelled, related};

use crate::notes::Notes;
use esc_names::{Binder, Join, Labelling, Relation};
use esc_read::FormStop;
use esc_term::{Formula, Head, Quant, Sym, Term};
use sqlite_items::{Boxed, Items};
use std::alloc::{AllocError, Global};

/// Want of memory.
pub(crate) fn exhausted(_: AllocError) -> FormStop
    ensures { result ≡ FormStop.Memory }
{
    FormStop::Memory
}

/// The formula, where memory sufficed to build it.
pub(crate) fn built(formula: Result<Formula, AllocError>) -> Result<Formula, FormStop>
    ensures { (f : Formula) → IfOk formula (λ g. g ≡ f) → Plain result (give f) }
{
    match formula {
        Ok(formula) => Ok(formula),
        Err(_) => Err(FormStop::Memory),
    }
}

/// The formula that a predicate holds.
pub(crate) fn holds(alloc: Global, predicate: Term) -> Formula
    ensures { result ≡ holds predicate }
{
    Formula::Eq(
        predicate,
        Term::App(Head::Name(Sym::TRUE), Items::new(alloc)),
    )
}

pub(crate) fn joined(
    alloc: Global,
    join: Join,
    left: Formula,
    right: Formula,
) -> Result<Formula, AllocError>
    ensures { IfOk result (λ f. f ≡ joined join left right) }
{
    // Both are boxed before either answer is looked at, so that no formula goes out of scope here.
    let left = Boxed::new(alloc, left);
    let right = Boxed::new(alloc, right);
    let (left, right) = (left?, right?);
    Ok(match join {
        Join::Implies => Formula::Implies(left, right),
        Join::Explies => Formula::Implies(right, left),
        Join::Iff => Formula::Iff(left, right),
    })
}

pub(crate) fn not(alloc: Global, part: Formula) -> Result<Formula, AllocError>
    ensures { IfOk result (λ f. f ≡ Formula.Not part) }
{
    Ok(Formula::Not(Boxed::new(alloc, part)?))
}

pub(crate) fn related(
    alloc: Global,
    relation: Relation,
    left: Term,
    right: Term,
) -> Result<Formula, AllocError>
    ensures { IfOk result (λ f. f ≡ related relation left right) }
{
    match relation {
        Relation::Eq => Ok(Formula::Eq(left, right)),
        Relation::Neq => not(alloc, Formula::Eq(left, right)),
        Relation::Less => Ok(Formula::Less(left, right)),
        Relation::Greater => Ok(Formula::Less(right, left)),
        Relation::AtMost => not(alloc, Formula::Less(right, left)),
        Relation::AtLeast => not(alloc, Formula::Less(left, right)),
    }
}

pub(crate) fn labelled(
    alloc: Global,
    labelling: Labelling,
    name: Sym,
    part: Formula,
) -> Result<Formula, AllocError>
    ensures { IfOk result (λ f. f ≡ labelled labelling name part) }
{
    let part = Boxed::new(alloc, part)?;
    match labelling {
        Labelling::Positive => Ok(Formula::LabelPos(name, part)),
        Labelling::Negative => Ok(Formula::LabelNeg(name, part)),
        Labelling::Both => Ok(Formula::LabelPos(
            name,
            Boxed::new(alloc, Formula::LabelNeg(name, part))?,
        )),
    }
}

/// The quantifier of so many variables, which is its body where there is none.
pub(crate) fn bound(
    alloc: Global,
    binder: Binder,
    count: usize,
    notes: Notes,
    body: Formula,
) -> Result<Formula, AllocError>
    ensures { IfOk result (λ f. f ≡ bound binder count notes body) }
{
    if count == 0 {
        return Ok(body);
    }
    let quant = Boxed::new(
        alloc,
        Quant {
            count: count as u64,
            patterns: notes.patterns,
            exempt: notes.exempt,
            body,
        },
    )?;
    Ok(match binder {
        Binder::Forall => Formula::Forall(quant),
        Binder::Exists => Formula::Exists(quant),
    })
}
