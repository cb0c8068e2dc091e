//! Facts become live, and occurrences are decided.

ghost use Rattle.std.specs.Prelude.{◌≡◌, ◌<◌, [], ◌∷◌, ◌++◌, length, IsTrue, OnErr, OnOk, Ok};
ghost use Rattle.std.specs.Prelude.{Some, slice_get};
ghost use Rattle.std.specs.List.{All, Contains};
ghost use Rattle.esc_book.specs.Book.{IsBook, IsLiveOccurrence};
ghost use Rattle.esc_sharing.specs.Nodes.{terms_in};
ghost use Rattle.esc_live.specs.StandingInside.{Brings};
ghost use Rattle.esc_live.specs.Promises.{decided_as, whole_at};
ghost use Rattle.esc_egraph.specs.declared.state.State.TheVariants as state;
ghost use Rattle.esc_term.specs.declared.formula.Formula.{Formula};
ghost use Rattle.esc_term.specs.Formula.{is_closed, terms_of};
ghost use Rattle.esc_term.specs.Model.{Model};
ghost use Rattle.esc_trail.specs.Undo.{Notes};
ghost use Rattle.esc_live.specs.Calls.{AddsLiterals, Ends, GoesLiveOrNothing, GoesOn};
ghost use Rattle.esc_live.specs.Calls.{HoldsWithDecision, HoldsWithFact, MeansMore};
ghost use Rattle.esc_live.specs.LiveUndo.{live_undo};
ghost use Rattle.esc_live.specs.Promises.{IsBranch, IsGiven, IsSoundIn, IsUndecided};
ghost use Rattle.esc_live.specs.View.{logged};

use crate::branch::LiveBranch;
use crate::record::LiveRec;
use esc_book::book_laws;
use esc_clause::Occurrence;
use esc_egraph::State;
use esc_play::put_in_play;
use esc_simplex::Stop;
use esc_term::Formula;
use esc_trail::Trail;
use std::alloc::AllocError;

impl LiveBranch {
    /// Puts a closed formula at the end of the log. It fails only where memory is wanting, and then
    /// leaves all as it was.
    pub fn log(&mut self, formula: Formula) -> Result<(), AllocError>
        requires closed { IsTrue (is_closed formula) }
        ensures ok { OnOk result (logged self.new ≡ logged self.old ++ formula ∷ []) }
        ensures err { OnErr result (self.new ≡ self.old) }
        ensures rest { self.new
            ≡ record self.old { book = record self.old.book { logged = logged self.new } } }
        ensures branch { IsBranch self.old → IsBranch self.new }
        ensures given { IsGiven self.old → IsGiven self.new }
        ensures sound { IsBranch self.old → (M : Model) → IsSoundIn M self.old
            → IsSoundIn M self.new }
    {
        self.book.log(formula)
    }

    /// The fact at a place of the log becomes live: its terms come in play, and it is asserted.
    /// Closed only where no model makes it hold with what was asserted.
    pub fn assert(&mut self, place: usize, trail: &mut Trail<LiveRec>) -> Result<State, Stop>
        requires branch { IsBranch self.old }
        requires given { IsGiven self.old }
        requires there { place < length (logged self.old) }
        requires new { Contains self.old.book.live place → ⊥ }
        ensures ends { Ends self.new (HoldsWithFact self.old place) result }
        ensures live { result ≡ Ok state.Open
            → self.new.book.live ≡ self.old.book.live ++ place ∷ [] }
        ensures stop { GoesLiveOrNothing self.old self.new place }
        ensures literals { AddsLiterals self.old self.new }
        ensures logged { logged self.new ≡ logged self.old }
        ensures decisions { self.new.clauses.decisions ≡ self.old.clauses.decisions }
        ensures limit { self.new.sharing.theory.limit ≡ self.old.sharing.theory.limit }
        ensures given { IsGiven self.new }
        ensures means { MeansMore self.old self.new }
        ensures undo { Notes live_undo (λ rec. rec) trail.old.records trail.new.records
            self.old self.new }
    {
        book_laws();
        match self.bring(place, trail)? {
            State::Open => (),
            State::Closed => return Ok(State::Closed),
        }
        let Ok(()) = self.go_live(place, trail) else {
            return Err(Stop::Memory);
        };
        self.assert_occurrence(whole(place), trail)
    }

    /// The terms of the fact at a place of the log come in play.
    fn bring(&mut self, place: usize, trail: &mut Trail<LiveRec>) -> Result<State, Stop>
        requires branch { IsBranch self.old }
        requires given { IsGiven self.old }
        requires there { place < length (logged self.old) }
        ensures rest { self.new ≡ record self.old { sharing = self.new.sharing } }
        ensures ends { (f : Formula) → slice_get (logged self.old) place ≡ Some f
            → Brings self.old self.new f result }
        ensures given { IsGiven self.new }
        ensures means { MeansMore self.old self.new }
        ensures limit { self.new.sharing.theory.limit ≡ self.old.sharing.theory.limit }
        ensures undo { Notes live_undo (λ rec. rec) trail.old.records trail.new.records
            self.old self.new }
    {
        book_laws();
        let formula = &self.book.formulas().as_slice()[place];
        put_in_play(self.alloc, &mut self.sharing, formula, trail)
    }

    /// The fact at a place of the log becomes live, whose terms are in play. It fails only where
    /// memory is wanting, and then leaves all as it was.
    fn go_live(&mut self, place: usize, trail: &mut Trail<LiveRec>) -> Result<(), AllocError>
        requires book { IsBook self.old.sharing.graph self.old.book }
        requires there { place < length (logged self.old) }
        requires new { Contains self.old.book.live place → ⊥ }
        requires terms { (f : Formula) → slice_get (logged self.old) place ≡ Some f
            → All (Contains (terms_in self.old.sharing.graph)) (terms_of f) }
        ensures rest { self.new ≡ record self.old { book = self.new.book } }
        ensures logged { logged self.new ≡ logged self.old }
        ensures live { OnOk result (self.new.book.live ≡ self.old.book.live ++ place ∷ []) }
        ensures book { IsBook self.new.sharing.graph self.new.book }
        ensures err { OnErr result (self.new ≡ self.old) }
        ensures undo { Notes live_undo (λ rec. rec) trail.old.records trail.new.records
            self.old self.new }
    {
        self.book.go_live(self.sharing.graph(), place, trail)
    }

    /// Decides an occurrence of a live fact that was not decided: that it has its sign, or the
    /// contrary, which is asserted. Closed only where no model makes it so with what was asserted.
    pub fn decide(
        &mut self,
        at: Occurrence,
        holds: bool,
        trail: &mut Trail<LiveRec>,
    ) -> Result<State, Stop>
        requires branch { IsBranch self.old }
        requires given { IsGiven self.old }
        requires live { IsLiveOccurrence self.old.book at }
        requires undecided { IsUndecided self.old at }
        ensures ends { Ends self.new (HoldsWithDecision self.old (record { at = at; holds = holds }))
            result }
        ensures decided { OnOk result (self.new.clauses.decisions
            ≡ self.old.clauses.decisions ++ record { at = at; holds = holds } ∷ []) }
        ensures goes_on { GoesOn self.old self.new }
        ensures given { IsGiven self.new }
        ensures undo { Notes live_undo (λ rec. rec) trail.old.records trail.new.records
            self.old self.new }
    {
        let Ok(()) = self.clauses.decide(at, holds, trail) else {
            return Err(Stop::Memory);
        };
        self.assert_occurrence(decided(at, holds), trail)
    }
}

/// The occurrence of a whole fact, which is to hold.
fn whole(place: usize) -> Occurrence
    ensures { result ≡ whole_at place }
{
    Occurrence {
        fact: place as u64,
        place: 0,
        positive: true,
    }
}

/// The occurrence with its sign where it holds, and else with the contrary.
fn decided(at: Occurrence, holds: bool) -> Occurrence
    ensures { result ≡ decided_as (record { at = at; holds = holds }) }
{
    Occurrence {
        fact: at.fact,
        place: at.place,
        positive: at.positive == holds,
    }
}
