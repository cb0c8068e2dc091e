//! The facts of a round are logged and become live, one by one.

ghost use Rattle.std.specs.Prelude.{◌≡◌, ◌<◌, ◌∷◌, ◌++◌, [], length, OnOk, Some, slice_get};
ghost use Rattle.std.specs.List.{Contains};
ghost use Rattle.esc_egraph.specs.declared.state.State.TheVariants as state;
ghost use Rattle.esc_fact.specs.Legal.{IsLegal, made_facts};
ghost use Rattle.esc_search.specs.SearchInside.{IsAmid, IsKept, Reaches, StepsAmid, StepsTo};

use crate::course::Course;
use crate::keeping::answered;
use crate::outcome::Outcome;
use crate::search::Search;
use crate::step::Step;
use esc_egraph::State;
use esc_fact::{Base, Fact, fact_laws, formula_of};
use esc_simplex::Stop;
use esc_term::Copied;
use esc_verdict::rounding_laws;
use std::alloc::AllocError;

impl Search {
    /// Logs the next fact of a round, which is not logged yet, where the search is. It fails only
    /// where memory is wanting.
    pub(crate) fn log_next(
        &mut self,
        base: &Base,
        fact: Fact,
        coming: &[Fact],
        course: &Course,
    ) -> Result<(), AllocError>
        requires here { IsAmid base.now self.old course.now (fact ∷ coming.now) state.Open }
        requires new { Contains self.old.log fact → ⊥ }
        requires few { length (made_facts self.old.log) < self.old.limits.facts }
        ensures here { OnOk result (IsAmid base.now self.new course.now (fact ∷ coming.now)
            state.Open) }
        ensures log { OnOk result (self.new.log ≡ self.old.log ++ fact ∷ []) }
        ensures splits { self.new.splits ≡ self.old.splits }
        ensures kept { IsKept base.now self.old course.now.waiting self.new course.now.waiting }
    {
        let _coming = coming;
        let _course = course;
        fact_laws();
        rounding_laws();
        let len = self.count();
        let formula = formula_of(self.alloc, base, &fact)?;
        self.sides.push(self.under)?;
        let added = self.log.add(fact)?;
        let _ = added;
        match self.branch.log(formula) {
            Ok(()) => Ok(()),
            Err(error) => {
                self.log.cut(len);
                Err(error)
            }
        }
    }

    /// The next fact of a round, which stands at this place of the log, becomes live.
    pub(crate) fn assert_at(
        &mut self,
        base: &Base,
        fact: &Fact,
        place: usize,
        coming: &[Fact],
        course: &Course,
    ) -> Result<State, Stop>
        requires here { IsAmid base.now self.old course.now (fact.now ∷ coming.now) state.Open }
        requires there { slice_get self.old.log place ≡ Some fact.now }
        ensures reaches { Reaches base.now self.new course.now coming.now result }
        ensures splits { self.new.splits ≡ self.old.splits }
        ensures kept { IsKept base.now self.old course.now.waiting self.new course.now.waiting }
    {
        let _base = base;
        let _fact = fact;
        let _coming = coming;
        let _course = course;
        self.branch.assert(place, &mut self.trail)
    }

    /// The next fact of a round, which stands at this place of the log, becomes live, and the
    /// branch is refined.
    fn become_live(
        &mut self,
        base: &Base,
        fact: &Fact,
        place: usize,
        coming: &[Fact],
        course: &Course,
    ) -> Step
        requires here { IsAmid base.now self.old course.now (fact.now ∷ coming.now) state.Open }
        requires there { slice_get self.old.log place ≡ Some fact.now }
        ensures steps { StepsAmid base.now self.new course.now coming.now result }
        ensures splits { self.new.splits ≡ self.old.splits }
        ensures kept { IsKept base.now self.old course.now.waiting self.new course.now.waiting }
    {
        match self.assert_at(base, fact, place, coming, course) {
            Ok(State::Open) => {
                let refined = self.refine_here(base, coming, course);
                self.go_from(base, coming, course, refined)
            }
            Ok(State::Closed) => Step::Goes(State::Closed),
            Err(stop) => Step::Ends(self.stopped_by(base, stop)),
        }
    }

    /// How many facts are logged besides those that name a formula of the base.
    fn made_count(&self, base: &Base) -> usize
        requires { IsLegal base.now self.now.log }
        ensures { result ≡ length (made_facts self.now.log) }
    {
        let behind = self.count() - base.background.len();
        match &base.negated {
            Some(_) => behind - 1,
            None => behind,
        }
    }

    /// Logs a copy of the next fact of a round, which is not logged yet.
    fn log_copy(
        &mut self,
        base: &Base,
        fact: &Fact,
        coming: &[Fact],
        course: &Course,
    ) -> Result<(), AllocError>
        requires here { IsAmid base.now self.old course.now (fact.now ∷ coming.now) state.Open }
        requires new { Contains self.old.log fact.now → ⊥ }
        requires few { length (made_facts self.old.log) < self.old.limits.facts }
        ensures here { OnOk result (IsAmid base.now self.new course.now (fact.now ∷ coming.now)
            state.Open) }
        ensures log { OnOk result (self.new.log ≡ self.old.log ++ fact.now ∷ []) }
        ensures splits { self.new.splits ≡ self.old.splits }
        ensures kept { IsKept base.now self.old course.now.waiting self.new course.now.waiting }
    {
        let copy = fact.copied(self.alloc)?;
        self.log_next(base, copy, coming, course)
    }

    /// Adds the next fact of a round, which is not logged yet.
    fn add_new(&mut self, base: &Base, fact: &Fact, coming: &[Fact], course: &Course) -> Step
        requires here { IsAmid base.now self.old course.now (fact.now ∷ coming.now) state.Open }
        requires new { Contains self.old.log fact.now → ⊥ }
        ensures steps { StepsAmid base.now self.new course.now coming.now result }
        ensures splits { self.new.splits ≡ self.old.splits }
        ensures kept { IsKept base.now self.old course.now.waiting self.new course.now.waiting }
    {
        if self.made_count(base) as u64 >= self.limits.facts {
            return Step::Ends(answered(self.out_of_facts(base, fact, coming, course)));
        }
        let place = self.count();
        match self.log_copy(base, fact, coming, course) {
            Ok(()) => self.become_live(base, fact, place, coming, course),
            Err(_) => Step::Ends(Outcome::Memory),
        }
    }

    /// Adds the next fact of a round.
    fn add_fact(&mut self, base: &Base, fact: &Fact, coming: &[Fact], course: &Course) -> Step
        requires here { IsAmid base.now self.old course.now (fact.now ∷ coming.now) state.Open }
        ensures steps { StepsAmid base.now self.new course.now coming.now result }
        ensures splits { self.new.splits ≡ self.old.splits }
        ensures kept { IsKept base.now self.old course.now.waiting self.new course.now.waiting }
    {
        match self.log.place(fact) {
            Some(place) => self.become_live(base, fact, place, coming, course),
            None => self.add_new(base, fact, coming, course),
        }
    }

    /// Adds the facts of a round, until the branch is refuted or the search ends.
    pub(crate) fn add_facts(&mut self, base: &Base, list: &[Fact], course: &Course) -> Step
        requires here { IsAmid base.now self.old course.now list.now state.Open }
        ensures steps { StepsTo base.now self.new course.now result }
        ensures splits { self.new.splits ≡ self.old.splits }
        ensures kept { IsKept base.now self.old course.now.waiting self.new course.now.waiting }
    {
        let mut coming = list;
        'facts: while let Some((fact, rest)) = coming.split_first() {
            match self.add_fact(base, fact, rest, course) {
                Step::Goes(State::Open) => coming = rest,
                Step::Goes(State::Closed) => return Step::Goes(State::Closed),
                Step::Ends(outcome) => return Step::Ends(outcome),
            }
        }
        Step::Goes(State::Open)
    }
}
