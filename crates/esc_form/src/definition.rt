//! Predicates that are defined.

ghost use Rattle.std.specs.Prelude.{◌≡◌, [], ◌∷◌, IfOk};
ghost use Rattle.esc_form.specs.Commands.{bound_variables, definition_of, predicate, rule};
ghost use Rattle.esc_form.specs.Formulas.{holds};
ghost use Rattle.esc_form.specs.Patterns.{only_patterns};

use crate::build::{bound, holds};
use crate::command::Kind;
use crate::notes::Notes;
use esc_names::Binder;
use esc_term::{Formula, Head, Sym, Term, Terms};
use sqlite_items::{Boxed, Items};
use std::alloc::{AllocError, Global};

/// A predicate that is defined: its name, and the place where it stands.
#[derive(Clone, Copy)]
pub struct Named {
    pub name: Sym,
    pub place: u64,
}

pub(crate) fn definition_of(named: Named, count: usize, rule: Option<Formula>) -> Kind
    ensures { result ≡ definition_of named count rule }
{
    Kind::Define {
        name: named.name,
        count: count as u64,
        name_place: named.place,
        rule,
    }
}

/// The predicate at so many variables.
fn predicate(alloc: Global, named: Named, count: usize) -> Result<Term, AllocError>
    ensures { IfOk result (λ t. t ≡ predicate named count) }
{
    let args = bound_variables(alloc, count as u64)?;
    Ok(Term::App(Head::Name(named.name), args))
}

/// So many bound variables, the outermost first.
fn bound_variables(alloc: Global, count: u64) -> Result<Terms, AllocError>
    ensures { IfOk result (λ ts. ts ≡ bound_variables count) }
{
    let mut variables = Items::new(alloc);
    'variables: for outside in 0..count {
        variables.push(Term::Var(count - 1 - outside))?;
    }
    Ok(variables)
}

/// The note that the predicate at its variables is a pattern.
fn pattern_note(alloc: Global, named: Named, count: usize) -> Result<Notes, AllocError>
    ensures { IfOk result (λ notes. notes ≡ only_patterns ((predicate named count ∷ []) ∷ [])) }
{
    let mut pattern = Items::new(alloc);
    pattern.push(predicate(alloc, named, count)?)?;
    let mut notes = Notes::new(alloc);
    notes.patterns.push(pattern)?;
    Ok(notes)
}

/// The formula that the predicate holds exactly where the body does.
fn equivalence(
    alloc: Global,
    named: Named,
    count: usize,
    body: Formula,
) -> Result<Formula, AllocError>
    ensures { IfOk result (λ f. f ≡ Formula.Iff (holds (predicate named count)) body) }
{
    let body = Boxed::new(alloc, body)?;
    let left = Boxed::new(alloc, holds(alloc, predicate(alloc, named, count)?))?;
    Ok(Formula::Iff(left, body))
}

/// The equivalence, for all values of the variables.
pub(crate) fn rule(
    alloc: Global,
    named: Named,
    count: usize,
    body: Formula,
) -> Result<Formula, AllocError>
    ensures { IfOk result (λ f. f ≡ rule named count body) }
{
    let equivalence = equivalence(alloc, named, count, body)?;
    let Ok(notes) = pattern_note(alloc, named, count) else {
        // A call, since the proof would take its forms apart at the end of the scope.
        drop(equivalence);
        return Err(AllocError);
    };
    bound(alloc, Binder::Forall, count, notes, equivalence)
}
