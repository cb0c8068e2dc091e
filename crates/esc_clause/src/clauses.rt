//! Clauses and decisions.

ghost use Rattle.std.specs.Prelude.{◌≡◌, ◌<◌, [], ◌∷◌, ◌++◌, OnOk, OnErr};
ghost use Rattle.esc_trail.specs.Undo.{Notes};
ghost use Rattle.esc_clause.specs.ClauseContext.{new_clause};
ghost use Rattle.esc_clause.specs.ClausesUndo.{clauses_undo};

mod look;
mod refine;

use crate::decision::Decision;
use crate::decisions::Decisions;
use crate::kept::Kept;
use crate::occurrence::{Occurrence, Occurrences};
use crate::record::ClauseRec;
use esc_trail::{Carries, Trail, Undoable};
use std::alloc::{AllocError, Global};
use std::marker::Model;

/// The clauses with the items that are left of them, and the decisions.
#[derive(Drop)]
pub struct Clauses {
    alloc: Global,
    clauses: Vec<Kept>,
    decisions: Decisions,
}

impl Model for Clauses {
    ghost use Rattle.esc_clause.specs.ClauseContext.{ClauseContext};

    ghost Value = { ClauseContext };

    ghost view = { λ c. record { clauses = c.clauses.items; decisions = c.decisions } };
}

impl Clauses {
    /// No clauses and no decisions.
    pub fn new(alloc: Global) -> Clauses
        ensures { result ≡ record { clauses = []; decisions = [] } }
    {
        Clauses {
            alloc,
            clauses: Vec::new(alloc),
            decisions: Decisions::new(alloc),
        }
    }

    /// Adds a clause: one of the items is to have its sign. It fails only where memory is wanting,
    /// and then leaves all as it was.
    pub fn add<R: Carries<ClauseRec>>(
        &mut self,
        items: &Occurrences,
        trail: &mut Trail<R>,
    ) -> Result<(), AllocError>
        ensures ok { OnOk result (self.new
            ≡ record self.old { clauses = self.old.clauses ++ new_clause items.now ∷ [] }) }
        ensures err { OnErr result (self.new ≡ self.old) }
        ensures undo { Notes clauses_undo R.carried trail.old.records trail.new.records
            self.old self.new }
    {
        let kept = Kept::new(self.alloc, items.as_slice())?;
        self.clauses.reserve(1)?;
        trail.reserve(1)?;
        trail.note(R::carry(ClauseRec::Added));
        match self.clauses.push(kept) {
            Ok(()) => Ok(()),
            Err(_) => unreachable!(),
        }
    }

    /// Decides that an occurrence has its sign, or that it has the contrary. It fails only where
    /// memory is wanting, and then leaves all as it was.
    pub fn decide<R: Carries<ClauseRec>>(
        &mut self,
        at: Occurrence,
        holds: bool,
        trail: &mut Trail<R>,
    ) -> Result<(), AllocError>
        ensures ok { OnOk result (self.new
            ≡ record self.old {
              decisions =
                  self.old.decisions ++ record { at = at; holds = holds } ∷ [];
            }) }
        ensures err { OnErr result (self.new ≡ self.old) }
        ensures undo { Notes clauses_undo R.carried trail.old.records trail.new.records
            self.old self.new }
    {
        trail.reserve(1)?;
        self.decisions.push(Decision { at, holds })?;
        trail.note(R::carry(ClauseRec::Decided));
        Ok(())
    }
}

impl Undoable for Clauses {
    type Rec = ClauseRec;

    ghost use Rattle.esc_clause.specs.ClausesUndo.{clauses_undo, clauses_back, CanGoBack};
    ghost use Rattle.esc_trail.proofs.Lawful.{equal_is_lawful};

    ghost undo = { clauses_undo };

    ghost lawful = { equal_is_lawful clauses_back CanGoBack };

    fn back(&mut self, rec: ClauseRec) {
        match rec {
            ClauseRec::Added => {
                let _ = self.clauses.pop();
            }
            ClauseRec::Dropped { at, place } => self.clauses[at].set_gone(place, false),
            ClauseRec::Decided => self.decisions.pop(),
        }
    }
}
