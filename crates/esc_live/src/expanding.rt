//! An occurrence of a live fact is asserted, and all that it expands to.

ghost use Rattle.std.specs.Prelude.{◌≡◌, [], ◌∷◌, OnOk};
ghost use Rattle.std.specs.List.{All};
ghost use Rattle.esc_trail.specs.Undo.{Notes};
ghost use Rattle.esc_book.specs.Book.{IsLiveOccurrence};
ghost use Rattle.esc_clause.specs.Expansion as expansion;
ghost use Rattle.esc_live.specs.LiveUndo.{live_undo};
ghost use Rattle.esc_live.specs.Promises.{IsGiven};
ghost use Rattle.esc_live.specs.StandingInside.{AddsClauses, Asserts, IsStanding, Steps};
ghost use Rattle.esc_live.specs.StandingInside.{WithClauses};
ghost use Rattle.esc_live.specs.View.{judge_on, logged};

use crate::branch::LiveBranch;
use crate::record::LiveRec;
use esc_book::Expanded;
use esc_clause::{Judge, Occurrence, Occurrences, Truth, expansion_laws};
use esc_egraph::State;
use esc_simplex::Stop;
use esc_trail::Trail;
use std::alloc::AllocError;

impl LiveBranch {
    /// Asserts an occurrence with its sign. Closed only where no model makes it so with what was
    /// asserted. Where it is all of its parts these alone are judged, each once however deep it
    /// stands.
    #[cycle(assert_occurrence)]
    pub(crate) fn assert_occurrence(
        &mut self,
        at: Occurrence,
        trail: &mut Trail<LiveRec>,
    ) -> Result<State, Stop>
        requires standing { IsStanding self.old }
        requires given { IsGiven self.old }
        requires live { IsLiveOccurrence self.old.book at }
        ensures ends { Asserts self.old self.new (at ∷ []) result }
        ensures steps { Steps self.old self.new }
        ensures undo { Notes live_undo (λ rec. rec) trail.old.records trail.new.records
            self.old self.new }
    {
        expansion_laws();
        let Ok(expanded) = self.book.expanded(at) else {
            return Err(Stop::Memory);
        };
        match expanded {
            Expanded::AllOf(parts) => self.assert_all(parts.as_slice(), trail),
            Expanded::OneOfEach(clauses) => self.assert_clauses(at, clauses.as_slice(), trail),
            Expanded::Never => Ok(State::Closed),
            Expanded::Literal => self.assert_once(at, trail),
        }
    }

    /// Asserts occurrences, each with its sign, in order.
    #[cycle(assert_occurrence)]
    fn assert_all(
        &mut self,
        parts: &[Occurrence],
        trail: &mut Trail<LiveRec>,
    ) -> Result<State, Stop>
        requires standing { IsStanding self.old }
        requires given { IsGiven self.old }
        requires live { All (IsLiveOccurrence self.old.book) parts.now }
        ensures ends { Asserts self.old self.new parts.now result }
        ensures steps { Steps self.old self.new }
        ensures undo { Notes live_undo (λ rec. rec) trail.old.records trail.new.records
            self.old self.new }
    {
        'parts: for part in parts {
            match self.assert_occurrence(*part, trail)? {
                State::Open => (),
                State::Closed => return Ok(State::Closed),
            }
        }
        Ok(State::Open)
    }

    /// Asserts an occurrence that is one of each of these clauses, unless it is said already.
    fn assert_clauses(
        &mut self,
        at: Occurrence,
        clauses: &[Occurrences],
        trail: &mut Trail<LiveRec>,
    ) -> Result<State, Stop>
        requires standing { IsStanding self.old }
        requires given { IsGiven self.old }
        requires live { IsLiveOccurrence self.old.book at }
        requires expands { expansion.expanded (logged self.old) at
            ≡ expansion.OneOfEach clauses.now }
        ensures ends { Asserts self.old self.new (at ∷ []) result }
        ensures steps { Steps self.old self.new }
        ensures undo { Notes live_undo (λ rec. rec) trail.old.records trail.new.records
            self.old self.new }
    {
        expansion_laws();
        match self.truth_of(at) {
            Truth::Yes => return Ok(State::Open),
            Truth::No => return Ok(State::Closed),
            Truth::Open => (),
        }
        let Ok(()) = self.add_clauses(clauses, trail) else {
            return Err(Stop::Memory);
        };
        Ok(State::Open)
    }

    /// Asserts a literal, unless it is said already.
    fn assert_once(&mut self, at: Occurrence, trail: &mut Trail<LiveRec>) -> Result<State, Stop>
        requires standing { IsStanding self.old }
        requires given { IsGiven self.old }
        requires live { IsLiveOccurrence self.old.book at }
        requires literal { expansion.expanded (logged self.old) at ≡ expansion.Literal }
        ensures ends { Asserts self.old self.new (at ∷ []) result }
        ensures steps { Steps self.old self.new }
        ensures undo { Notes live_undo (λ rec. rec) trail.old.records trail.new.records
            self.old self.new }
    {
        match self.truth_of(at) {
            Truth::Yes => Ok(State::Open),
            Truth::No => Ok(State::Closed),
            Truth::Open => self.assert_literal(at, trail),
        }
    }

    /// What literals and classes say of an occurrence of a live fact.
    fn truth_of(&self, at: Occurrence) -> Truth
        requires standing { IsStanding self.now }
        ensures { result ≡ judge_on self.now at }
    {
        self.judge_standing().judge(at)
    }

    /// Adds clauses, in order. It fails only where memory is wanting.
    fn add_clauses(
        &mut self,
        clauses: &[Occurrences],
        trail: &mut Trail<LiveRec>,
    ) -> Result<(), AllocError>
        ensures ok { OnOk result (WithClauses self.old self.new clauses.now) }
        ensures adds { AddsClauses self.old self.new }
        ensures undo { Notes live_undo (λ rec. rec) trail.old.records trail.new.records
            self.old self.new }
    {
        'clauses: for clause in clauses {
            self.clauses.add(clause, trail)?;
        }
        Ok(())
    }
}
