//! The search through the splits.

ghost use Rattle.std.specs.Prelude.{◌≡◌, ℕ, ◌<◌, ◌+◌, ◌∷◌, ◌++◌, [], length, Ok, OnOk, Some, true};
ghost use Rattle.std.specs.Prelude.{false, take};
ghost use Rattle.esc_clause.specs.Refinement.{next_split};
ghost use Rattle.esc_egraph.specs.declared.state.State.TheVariants as state;
ghost use Rattle.esc_live.specs.View.{judge_on, literals_on};
ghost use Rattle.esc_refine.specs.Refining.{IsQuiet, SplitsAt};
ghost use Rattle.esc_search.specs.Proving.{ComesTo, IsSaturatedHere, live_facts};
ghost use Rattle.esc_search.specs.SearchInside.{IsAmid, IsAt, IsKept, IsNearer, IsSearch};
ghost use Rattle.esc_search.specs.SearchInside.{IsToDecide, Reaches, StepsAmid, StepsTo};
ghost use Rattle.esc_search.specs.SearchInside.{steps_left};
ghost use Rattle.esc_verdict.specs.Rounds.{IsRoundOf};

use crate::course::Course;
use crate::keeping::answered;
use crate::open_split::OpenSplit;
use crate::outcome::Outcome;
use crate::search::Search;
use crate::step::Step;
use esc_clause::Occurrence;
use esc_egraph::State;
use esc_fact::{Base, Fact, fact_laws};
use esc_live::live_laws;
use esc_outcome::Split;
use esc_refine::{next_split, refine};
use esc_simplex::Stop;
use esc_verdict::{Starts, rounding_laws};
use sqlite_items::Items;
use std::alloc::AllocError;

impl Search {
    /// Decides an occurrence where the search is.
    fn decide(
        &mut self,
        base: &Base,
        at: Occurrence,
        holds: bool,
        course: &Course,
    ) -> Result<State, Stop>
        requires search { IsSearch base.now self.old course.now }
        requires ready { IsToDecide base.now self.old course.now.starts at holds }
        ensures reaches { Reaches base.now self.new course.now [] result }
        ensures splits { self.new.splits ≡ self.old.splits }
        ensures kept { IsKept base.now self.old course.now.waiting self.new
            course.now.waiting }
    {
        let _base = base;
        let _course = course;
        self.branch.decide(at, holds, &mut self.trail)
    }

    /// Refines the branch at hand, where these facts are still to come.
    pub(crate) fn refine_here(
        &mut self,
        base: &Base,
        coming: &[Fact],
        course: &Course,
    ) -> Result<State, Stop>
        requires here { IsAmid base.now self.old course.now coming.now state.Open }
        ensures reaches { Reaches base.now self.new course.now coming.now result }
        ensures quiet { result ≡ Ok state.Open → IsQuiet self.new.branch }
        ensures splits { self.new.splits ≡ self.old.splits }
        ensures kept { IsKept base.now self.old course.now.waiting self.new
            course.now.waiting }
    {
        let _base = base;
        let _coming = coming;
        let _course = course;
        refine(&mut self.branch, &mut self.trail)
    }

    /// Makes a split where the search is, and goes to its first side.
    fn open_split(
        &mut self,
        base: &Base,
        at: Occurrence,
        course: &mut Course,
    ) -> Result<(), AllocError>
        requires here { IsAt base.now self.old course.old state.Open }
        requires splits { SplitsAt self.old.branch (Some at) }
        requires more { length self.old.splits < self.old.limits.splits }
        ensures search { OnOk result (IsSearch base.now self.new course.new) }
        ensures ready { OnOk result (IsToDecide base.now self.new course.new.starts at true) }
        ensures nearer { OnOk result (steps_left self.new course.new
            < steps_left self.old course.old) }
        ensures kept { IsKept base.now self.old course.old.waiting self.new
            course.new.waiting }
    {
        let _base = base;
        let number = self.splits.len() as u64;
        let split = Split {
            under: self.under,
            at,
        };
        let mark = self.trail.mark();
        course.waiting.push(OpenSplit {
            mark,
            number,
            rounds: course.starts.len() as u64,
            split,
        })?;
        self.splits.push(split)?;
        self.under = Some((number, true));
        Ok(())
    }

    /// Goes from a branch that is refuted to the other side of the newest open split, which was
    /// taken from those that wait.
    fn other_side(&mut self, base: &Base, last: OpenSplit, course: &mut Course)
        requires here { IsAt base.now self.old
            (record course.old { waiting = course.old.waiting ++ last ∷ [] }) state.Closed }
        ensures search { IsSearch base.now self.new course.new }
        ensures ready { IsToDecide base.now self.new course.new.starts last.split.at false }
        ensures splits { self.new.splits ≡ self.old.splits }
        ensures waiting { course.new.waiting ≡ course.old.waiting }
        ensures kept { IsKept base.now self.old (course.old.waiting ++ last ∷ []) self.new
            course.new.waiting }
    {
        let _base = base;
        fact_laws();
        live_laws();
        self.trail.pop_to(last.mark, &mut self.branch);
        self.under = Some((last.number, false));
        cut_starts(&mut course.starts, last.rounds as usize);
    }

    /// Goes on from what a call reached, where these facts are still to come.
    pub(crate) fn go_from(
        &self,
        base: &Base,
        coming: &[Fact],
        course: &Course,
        reached: Result<State, Stop>,
    ) -> Step
        requires reaches { Reaches base.now self.now course.now coming.now reached }
        ensures steps { StepsAmid base.now self.now course.now coming.now result }
        ensures nearer { (before after : ℕ) → after < before → IsNearer before after result }
    {
        let _coming = coming;
        let _course = course;
        match reached {
            Ok(state) => Step::Goes(state),
            Err(stop) => Step::Ends(self.stopped_by(base, stop)),
        }
    }

    /// Decides an occurrence where the search is, and goes on from there.
    fn take_side(&mut self, base: &Base, at: Occurrence, holds: bool, course: &Course) -> Step
        requires search { IsSearch base.now self.old course.now }
        requires ready { IsToDecide base.now self.old course.now.starts at holds }
        ensures steps { StepsTo base.now self.new course.now result }
        ensures nearer { (before : ℕ) → steps_left self.old course.now < before
            → IsNearer before (steps_left self.new course.now) result }
        ensures kept { IsKept base.now self.old course.now.waiting self.new
            course.now.waiting }
    {
        let reached = self.decide(base, at, holds, course);
        self.go_from(base, &[], course, reached)
    }

    /// Splits where the branch at hand is to be split, and goes on with the first side.
    fn split(&mut self, base: &Base, at: Occurrence, course: &mut Course) -> Step
        requires here { IsAt base.now self.old course.old state.Open }
        requires quiet { IsQuiet self.old.branch }
        requires saturated { IsSaturatedHere base.now self.old }
        requires next { next_split (judge_on self.old.branch) self.old.branch.clauses ≡ Some at }
        requires splits { SplitsAt self.old.branch (Some at) }
        ensures steps { StepsTo base.now self.new course.new result }
        ensures nearer { IsNearer (steps_left self.old course.old) (steps_left self.new course.new)
            result }
        ensures kept { IsKept base.now self.old course.old.waiting self.new
            course.new.waiting }
    {
        if self.splits.len() as u64 >= self.limits.splits {
            return Step::Ends(answered(self.out_of_splits(base, course, at)));
        }
        match self.open_split(base, at, course) {
            Ok(()) => self.take_side(base, at, true, course),
            Err(_) => Step::Ends(Outcome::Memory),
        }
    }

    /// Goes back to the newest open split, and on with its other side.
    pub(crate) fn go_back(&mut self, base: &Base, course: &mut Course) -> Step
        requires here { IsAt base.now self.old course.old state.Closed }
        ensures steps { StepsTo base.now self.new course.new result }
        ensures nearer { IsNearer (steps_left self.old course.old) (steps_left self.new course.new)
            result }
        ensures kept { IsKept base.now self.old course.old.waiting self.new
            course.new.waiting }
    {
        match course.waiting.pop() {
            None => Step::Ends(Outcome::Closed),
            Some(last) => {
                let at = last.split.at;
                self.other_side(base, last, course);
                self.take_side(base, at, false, course)
            }
        }
    }

    /// Goes on with a refined branch to which no round adds facts.
    fn go_on_saturated(&mut self, base: &Base, course: &mut Course) -> Step
        requires here { IsAt base.now self.old course.old state.Open }
        requires quiet { IsQuiet self.old.branch }
        requires saturated { IsSaturatedHere base.now self.old }
        ensures steps { StepsTo base.now self.new course.new result }
        ensures nearer { IsNearer (steps_left self.old course.old) (steps_left self.new course.new)
            result }
        ensures kept { IsKept base.now self.old course.old.waiting self.new
            course.new.waiting }
    {
        match next_split(&self.branch) {
            None => Step::Ends(Outcome::Open),
            Some(at) => self.split(base, at, course),
        }
    }

    /// Goes on with a refined branch to which the next round adds these facts.
    fn go_on_with(&mut self, base: &Base, list: &[Fact], course: &mut Course) -> Step
        requires here { IsAt base.now self.old course.old state.Open }
        requires quiet { IsQuiet self.old.branch }
        requires round { IsRoundOf base.now self.old.limits.depth (live_facts self.old)
            (literals_on self.old.branch) list.now }
        ensures steps { StepsTo base.now self.new course.new result }
        ensures nearer { IsNearer (steps_left self.old course.old) (steps_left self.new course.new)
            result }
        ensures kept { IsKept base.now self.old course.old.waiting self.new
            course.new.waiting }
    {
        rounding_laws();
        let Some((next, rest)) = list.split_first() else {
            return self.go_on_saturated(base, course);
        };
        if course.starts.len() as u64 >= self.limits.rounds {
            return Step::Ends(answered(self.out_of_rounds(base, next, rest, course)));
        }
        self.make_round(base, list, course)
    }

    /// Goes on with a refined branch.
    fn go_on_refined(&mut self, base: &Base, course: &mut Course) -> Step
        requires here { IsAt base.now self.old course.old state.Open }
        requires quiet { IsQuiet self.old.branch }
        ensures steps { StepsTo base.now self.new course.new result }
        ensures nearer { IsNearer (steps_left self.old course.old) (steps_left self.new course.new)
            result }
        ensures kept { IsKept base.now self.old course.old.waiting self.new
            course.new.waiting }
    {
        match self.next_round(base, course) {
            Ok(list) => self.go_on_with(base, list.as_slice(), course),
            Err(_) => Step::Ends(Outcome::Memory),
        }
    }

    /// Goes on with an open branch.
    fn go_on(&mut self, base: &Base, course: &mut Course) -> Step
        requires here { IsAt base.now self.old course.old state.Open }
        ensures steps { StepsTo base.now self.new course.new result }
        ensures nearer { IsNearer (steps_left self.old course.old) (steps_left self.new course.new)
            result }
        ensures kept { IsKept base.now self.old course.old.waiting self.new
            course.new.waiting }
    {
        match self.refine_here(base, &[], course) {
            Ok(State::Open) => self.go_on_refined(base, course),
            Ok(State::Closed) => self.go_back(base, course),
            Err(stop) => Step::Ends(self.stopped_by(base, stop)),
        }
    }

    fn step(&mut self, base: &Base, state: State, course: &mut Course) -> Step
        requires here { IsAt base.now self.old course.old state }
        ensures steps { StepsTo base.now self.new course.new result }
        ensures nearer { IsNearer (steps_left self.old course.old) (steps_left self.new course.new)
            result }
        ensures kept { IsKept base.now self.old course.old.waiting self.new
            course.new.waiting }
    {
        match state {
            State::Open => self.go_on(base, course),
            State::Closed => self.go_back(base, course),
        }
    }

    /// Searches through the splits of an open branch.
    pub(crate) fn explore(&mut self, base: &Base) -> Outcome
        requires here { IsAt base.now self.old (record { waiting = []; starts = [] }) state.Open }
        ensures comes { ComesTo base.now self.new result }
        ensures kept { IsKept base.now self.old [] self.new [] }
    {
        let mut course = Course {
            waiting: Items::new(self.alloc),
            starts: Items::new(self.alloc),
        };
        let mut state = State::Open;
        'steps: loop {
            match self.step(base, state, &mut course) {
                Step::Goes(next) => state = next,
                Step::Ends(outcome) => return outcome,
            }
        }
    }
}

/// Keeps the first starts, so many.
fn cut_starts(starts: &mut Starts, len: usize)
    ensures { starts.new ≡ take len starts.old }
{
    'starts: while starts.len() > len {
        let _ = starts.pop();
    }
}
