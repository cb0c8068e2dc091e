//! A literal of a live fact is asserted.

ghost use Rattle.std.specs.Prelude.{◌≡◌, [], ◌∷◌, ◌++◌, IsTrue, OnErr, OnOk};
ghost use Rattle.std.specs.List.{All};
ghost use Rattle.esc_trail.specs.Undo.{Notes};
ghost use Rattle.esc_book.specs.Book.{IsBook, IsLiveOccurrence};
ghost use Rattle.esc_sharing.specs.Numbers.{number_terms};
ghost use Rattle.esc_clause.specs.Expansion as expansion;
ghost use Rattle.esc_clause.specs.declared.truth.Truth.TheVariants as truth;
ghost use Rattle.esc_sharing.specs.Shared.{IsShared};
ghost use Rattle.esc_simplex.specs.View.{IsSimplex};
ghost use Rattle.esc_outcome.specs.JamLaws.{shared_in};
ghost use Rattle.esc_live.specs.Calls.{MeansMore};
ghost use Rattle.esc_live.specs.LiveUndo.{live_undo};
ghost use Rattle.esc_live.specs.Promises.{IsGiven, IsSharedOn};
ghost use Rattle.esc_live.specs.StandingInside.{Asserts, Comes, IsLiteralAt, IsStanding, StaysGiven};
ghost use Rattle.esc_live.specs.StandingInside.{HasNumbers, Steps, equation_lit, order_lit};
ghost use Rattle.esc_live.specs.View.{judge_on, logged};

use crate::branch::LiveBranch;
use crate::record::LiveRec;
use esc_book::{Atom, book_laws};
use esc_clause::Occurrence;
use esc_egraph::{Node, State};
use esc_sharing::Lit;
use esc_simplex::Stop;
use esc_trail::Trail;
use std::alloc::AllocError;

impl LiveBranch {
    /// Asserts a literal of which nothing is said yet.
    pub(crate) fn assert_literal(
        &mut self,
        at: Occurrence,
        trail: &mut Trail<LiveRec>,
    ) -> Result<State, Stop>
        requires standing { IsStanding self.old }
        requires given { IsGiven self.old }
        requires live { IsLiveOccurrence self.old.book at }
        requires open { judge_on self.old at ≡ truth.Open }
        requires literal { expansion.expanded (logged self.old) at ≡ expansion.Literal }
        ensures ends { Asserts self.old self.new (at ∷ []) result }
        ensures steps { Steps self.old self.new }
        ensures undo { Notes live_undo (λ rec. rec) trail.old.records trail.new.records
            self.old self.new }
    {
        book_laws();
        let Ok(()) = self.push_literal(at, trail) else {
            return Err(Stop::Memory);
        };
        self.share(at, trail)
    }

    /// Puts an occurrence at the end of the literals. It fails only where memory is wanting, and
    /// then leaves all as it was.
    fn push_literal(&mut self, at: Occurrence, trail: &mut Trail<LiveRec>) -> Result<(), AllocError>
        ensures ok { OnOk result (self.new
            ≡ record self.old { literals = self.old.literals ++ at ∷ [] }) }
        ensures err { OnErr result (self.new ≡ self.old) }
        ensures undo { Notes live_undo (λ rec. rec) trail.old.records trail.new.records
            self.old self.new }
    {
        trail.reserve(1)?;
        self.literals.push(at)?;
        trail.note(LiveRec::Literal);
        Ok(())
    }

    /// Tells the sharing of a literal, unless it is quantified.
    fn share(&mut self, at: Occurrence, trail: &mut Trail<LiveRec>) -> Result<State, Stop>
        requires book { IsBook self.old.sharing.graph self.old.book }
        requires shared { IsShared (shared_in self.old.sharing) }
        requires sound { IsSimplex self.old.sharing.theory }
        requires live { IsLiveOccurrence self.old.book at }
        requires literal { IsLiteralAt (logged self.old) at }
        requires sides { HasNumbers self.old at }
        ensures rest { self.new ≡ record self.old { sharing = self.new.sharing } }
        ensures comes { Comes self.old self.new at result }
        ensures given { StaysGiven self.old.sharing.theory self.new.sharing.theory }
        ensures sound { IsSimplex self.new.sharing.theory }
        ensures means { MeansMore self.old self.new }
        ensures limit { self.new.sharing.theory.limit ≡ self.old.sharing.theory.limit }
        ensures undo { Notes live_undo (λ rec. rec) trail.old.records trail.new.records
            self.old self.new }
    {
        match self.book.atom(at) {
            Atom::Equal(a, b) => self
                .sharing
                .assert_literal(equation(a, b, at.positive), trail),
            Atom::Less(a, b) => self.sharing.assert_literal(order(a, b, at.positive), trail),
            Atom::Distinct => self.sharing.assert_group(self.book.group(at), trail),
            Atom::Quantified => Ok(State::Open),
        }
    }
}

/// That two nodes are equal, or that they are not.
fn equation(a: Node, b: Node, positive: bool) -> Lit
    ensures { result ≡ equation_lit a b positive }
{
    if positive {
        Lit::Equal(a, b)
    } else {
        Lit::Apart(a, b)
    }
}

/// That one node is less than another, or that it is not.
fn order(a: Node, b: Node, positive: bool) -> Lit
    ensures { result ≡ order_lit a b positive }
{
    if positive {
        Lit::Below(a, b)
    } else {
        Lit::AtMost(b, a)
    }
}
