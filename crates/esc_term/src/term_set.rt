//! Terms in order, each once.

ghost use Rattle.std.specs.Prelude.{◌≡◌, [], IfOk, OnOk, OnErr};
ghost use Rattle.std.specs.List.{list_any};
ghost use Rattle.esc_term.specs.Equal.{same_term};
ghost use Rattle.esc_term.specs.Term.{with_once};

use crate::copied::with_room;
use crate::term::{Term, Terms};
use indexmap::IndexSet;
use std::alloc::{AllocError, Global};
use std::marker::Model;

/// Terms in the order in which they were added, each once. A term is looked up by its hash.
#[derive(Drop)]
pub struct TermSet {
    terms: IndexSet<Term>,
}

impl Model for TermSet {
    ghost use Rattle.std.specs.Prelude.{List};
    ghost use Rattle.std.specs.Coded.{codes};
    ghost use Rattle.esc_term.specs.declared.term.Term.{Term};
    ghost use Rattle.esc_term.specs.contracts.term.Term as term;

    ghost Value = { List Term };

    ghost coded = { Prim.hlevel (codes, term.the_row.coded) };

    ghost view = { λ set. set.terms.keys };
}

impl TermSet {
    /// A set without terms.
    pub fn new(alloc: Global) -> TermSet
        ensures { result ≡ [] }
    {
        TermSet {
            terms: IndexSet::new(alloc),
        }
    }

    pub fn contains(&self, term: &Term) -> bool
        ensures { result ≡ list_any (same_term term.now) self.now }
    {
        self.terms.contains(term)
    }

    /// Puts the term at the end, unless it is there.
    #[tactic(auto, unfolding(crate::specs::Term::with_once))]
    pub fn add(&mut self, term: Term) -> Result<(), AllocError>
        ensures ok { OnOk result (self.new ≡ with_once self.old term) }
        ensures err { OnErr result (self.new ≡ self.old) }
    {
        self.terms.insert(term)?;
        Ok(())
    }

    /// The terms as a list, in their order.
    pub fn into_terms(self, alloc: Global) -> Result<Terms, AllocError>
        ensures { IfOk result (λ terms. terms ≡ self) }
    {
        let mut terms = with_room(alloc, self.terms.len())?;
        for term in self.terms {
            terms.push(term)?;
        }
        Ok(terms)
    }
}
