//! The facts that name a formula of the base become live, at the root.

ghost use Rattle.std.specs.Prelude.{◌≡◌, ◌<◌, ◌≤◌, ◌+◌, ◌∷◌, ◌++◌, [], length, slice_get, Ok, OnOk};
ghost use Rattle.std.specs.Prelude.{Some};
ghost use Rattle.std.specs.Option.{IsSome};
ghost use Rattle.esc_egraph.specs.declared.state.State.TheVariants as state;
ghost use Rattle.esc_fact.specs.Legal.{IsClosedBase, first_facts};
ghost use Rattle.esc_fact.specs.declared.fact.Fact.TheVariants.{Given};
ghost use Rattle.esc_refine.specs.Refining.{IsQuiet};
ghost use Rattle.esc_search.specs.Proving.{GivenEnds, IsReady, LogsGiven};
ghost use Rattle.esc_search.specs.SearchInside.{Begins, GoesLive, IsBegun, IsKept, IsLogged};
ghost use Rattle.esc_search.specs.SearchInside.{IsLoggedNext};
ghost use Rattle.esc_search.specs.declared.outcome.Outcome.TheVariants as outcome;

use crate::outcome::Outcome;
use crate::search::Search;
use esc_egraph::State;
use esc_fact::{Base, Fact, fact_laws, formula_of};
use esc_refine::refine;
use esc_simplex::Stop;
use std::alloc::AllocError;

impl Search {
    /// How many facts are logged.
    pub(crate) fn count(&self) -> usize
        ensures { result ≡ length self.now.log }
    {
        self.log.list().len()
    }

    /// How many facts are live.
    pub(crate) fn live_count(&self) -> usize
        ensures { result ≡ length self.now.branch.book.live }
    {
        self.branch.book.live().len()
    }

    /// Logs the next fact that names a formula of the base. It fails only where memory is wanting.
    fn log_first(&mut self, base: &Base, fact: Fact) -> Result<(), AllocError>
        requires closed { IsClosedBase base.now }
        requires begun { IsBegun base.now self.old }
        requires next { slice_get (first_facts base.now) (length self.old.log) ≡ Some fact }
        ensures begun { OnOk result (IsBegun base.now self.new) }
        ensures log { OnOk result (self.new.log ≡ self.old.log ++ fact ∷ []) }
        ensures live { self.new.branch.book.live ≡ self.old.branch.book.live }
        ensures kept { IsKept base.now self.old [] self.new [] }
    {
        fact_laws();
        let len = self.count();
        let formula = formula_of(self.alloc, base, &fact)?;
        self.sides.push(None)?;
        let added = self.log.add(fact)?;
        let _ = added;
        match self.branch.log(formula) {
            Ok(()) => Ok(()),
            Err(error) => {
                self.log.cut(len);
                Err(error)
            }
        }
    }

    /// Logs the facts that name a formula of the base. It fails only where memory is wanting.
    fn log_all(&mut self, base: &Base) -> Result<(), AllocError>
        requires closed { IsClosedBase base.now }
        requires goal { IsSome base.now.negated }
        requires begun { IsBegun base.now self.old }
        requires without_goal { length self.old.log ≤ length base.now.background }
        ensures logged { OnOk result (IsLogged base.now self.new) }
        ensures kept { IsKept base.now self.old [] self.new [] }
    {
        'background: while self.count() < base.background.len() {
            let place = self.count();
            self.log_first(base, Fact::Given(place as u64))?;
        }
        self.log_first(base, Fact::NegGoal)
    }

    /// Asserts the next fact of the log, which stands at this place.
    fn go_live(&mut self, base: &Base, place: usize) -> Result<State, Stop>
        requires begun { IsBegun base.now self.old }
        requires place { place ≡ length self.old.branch.book.live }
        requires more { length self.old.branch.book.live < length self.old.log }
        ensures goes { GoesLive base.now self.new result }
        ensures live { result ≡ Ok state.Open → length self.new.branch.book.live
            ≡ length self.old.branch.book.live + 1 }
        ensures log { self.new.log ≡ self.old.log }
        ensures kept { IsKept base.now self.old [] self.new [] }
    {
        let _base = base;
        self.branch.assert(place, &mut self.trail)
    }

    /// Refines the branch at hand.
    fn refine_begun(&mut self, base: &Base) -> Result<State, Stop>
        requires begun { IsBegun base.now self.old }
        ensures goes { GoesLive base.now self.new result }
        ensures quiet { result ≡ Ok state.Open → IsQuiet self.new.branch }
        ensures live { self.new.branch.book.live ≡ self.old.branch.book.live }
        ensures log { self.new.log ≡ self.old.log }
        ensures kept { IsKept base.now self.old [] self.new [] }
    {
        let _base = base;
        refine(&mut self.branch, &mut self.trail)
    }

    /// Asserts the next fact of the log, which stands at this place, and refines the branch.
    fn assert_next(&mut self, base: &Base, place: usize) -> Result<State, Stop>
        requires begun { IsBegun base.now self.old }
        requires place { place ≡ length self.old.branch.book.live }
        requires more { length self.old.branch.book.live < length self.old.log }
        ensures goes { GoesLive base.now self.new result }
        ensures quiet { result ≡ Ok state.Open → IsQuiet self.new.branch }
        ensures live { result ≡ Ok state.Open → length self.new.branch.book.live
            ≡ length self.old.branch.book.live + 1 }
        ensures log { self.new.log ≡ self.old.log }
        ensures kept { IsKept base.now self.old [] self.new [] }
    {
        match self.go_live(base, place) {
            Ok(State::Open) => self.refine_begun(base),
            Ok(State::Closed) => Ok(State::Closed),
            Err(stop) => Err(stop),
        }
    }

    /// Asserts the facts of the log.
    fn assert_all(&mut self, base: &Base) -> Result<State, Stop>
        requires logged { IsLogged base.now self.old }
        ensures begins { Begins base.now self.new result }
        ensures live { result ≡ Ok state.Open → length self.new.log
            ≤ length self.new.branch.book.live }
        ensures kept { IsKept base.now self.old [] self.new [] }
    {
        'facts: while self.live_count() < self.count() {
            let place = self.live_count();
            match self.assert_next(base, place) {
                Ok(State::Open) => (),
                Ok(State::Closed) => return Ok(State::Closed),
                Err(stop) => return Err(stop),
            }
        }
        Ok(State::Open)
    }

    /// Logs the fact that names the next formula of the background. It fails only where memory is
    /// wanting.
    fn log_given(&mut self, base: &Base) -> Result<(), AllocError>
        requires closed { IsClosedBase base.now }
        requires ready { IsReady base.now self.old }
        requires more { length self.old.log < length base.now.background }
        ensures logged { OnOk result (IsLoggedNext base.now self.new) }
        ensures log { OnOk result (self.new.log ≡ self.old.log ++ Given (length self.old.log) ∷ []) }
        ensures kept { IsKept base.now self.old [] self.new [] }
    {
        let place = self.count();
        self.log_first(base, Fact::Given(place as u64))
    }

    /// Asserts the last fact of the log, behind all others.
    fn assert_given_next(&mut self, base: &Base) -> Outcome
        requires logged { IsLoggedNext base.now self.old }
        ensures ends { GivenEnds base.now self.new result }
        ensures quiet { result ≡ outcome.Open → IsQuiet self.new.branch }
        ensures log { self.new.log ≡ self.old.log }
        ensures kept { IsKept base.now self.old [] self.new [] }
    {
        let place = self.live_count();
        match self.assert_next(base, place) {
            Ok(State::Open) => Outcome::Open,
            Ok(State::Closed) => Outcome::Closed,
            Err(stop) => self.stopped_by(base, stop),
        }
    }

    /// Logs the next formula of the background, and asserts it.
    pub(crate) fn begin_given(&mut self, base: &Base) -> Outcome
        requires closed { IsClosedBase base.now }
        requires ready { IsReady base.now self.old }
        requires more { length self.old.log < length base.now.background }
        ensures ends { GivenEnds base.now self.new result }
        ensures quiet { result ≡ outcome.Open → IsQuiet self.new.branch }
        ensures log { LogsGiven self.old.log self.new.log result }
        ensures kept { IsKept base.now self.old [] self.new [] }
    {
        match self.log_given(base) {
            Ok(()) => self.assert_given_next(base),
            Err(_) => Outcome::Memory,
        }
    }

    /// Logs and asserts the facts that name a formula of the base.
    pub(crate) fn begin(&mut self, base: &Base) -> Result<State, Stop>
        requires closed { IsClosedBase base.now }
        requires goal { IsSome base.now.negated }
        requires ready { IsReady base.now self.old }
        ensures begins { Begins base.now self.new result }
        ensures live { result ≡ Ok state.Open → length self.new.log
            ≤ length self.new.branch.book.live }
        ensures kept { IsKept base.now self.old [] self.new [] }
    {
        match self.log_all(base) {
            Ok(()) => self.assert_all(base),
            Err(_) => Err(Stop::Memory),
        }
    }
}
