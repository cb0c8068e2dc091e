//! A round is made on the branch at hand.

ghost use Rattle.std.specs.Prelude.{◌≡◌, ◌≢◌, ◌<◌, ◌+◌, ◌∷◌, ◌++◌, [], length, OnOk};
ghost use Rattle.esc_egraph.specs.declared.state.State.TheVariants as state;
ghost use Rattle.esc_live.specs.View.{literals_on};
ghost use Rattle.esc_search.specs.Proving.{live_facts};
ghost use Rattle.esc_search.specs.SearchInside.{IsAmid, IsAt, IsKept, IsNearer, StepsTo};
ghost use Rattle.esc_search.specs.SearchInside.{steps_left};
ghost use Rattle.esc_verdict.specs.Rounds.{IsRoundOf};

use crate::course::Course;
use crate::outcome::Outcome;
use crate::search::Search;
use crate::step::Step;
use esc_egraph::State;
use esc_fact::{Base, Fact};
use esc_verdict::{Start, rounding_laws};
use std::alloc::AllocError;

impl Search {
    /// How many literals were asserted.
    fn literal_count(&self) -> usize
        ensures { result ≡ length self.now.branch.literals }
    {
        self.literals().len()
    }

    /// Begins the round that adds these facts. It fails only where memory is wanting.
    fn begin_round(&self, base: &Base, list: &[Fact], course: &mut Course) -> Result<(), AllocError>
        requires here { IsAt base.now self.now course.old state.Open }
        requires round { IsRoundOf base.now self.now.limits.depth (live_facts self.now)
            (literals_on self.now.branch) list.now }
        requires some { list.now ≢ [] }
        requires may { length course.old.starts < self.now.limits.rounds }
        ensures here { OnOk result (IsAmid base.now self.now course.new list.now state.Open) }
        ensures waiting { course.new.waiting ≡ course.old.waiting }
        ensures starts { OnOk result (length course.new.starts ≡ length course.old.starts + 1) }
    {
        let _base = base;
        let _list = list;
        rounding_laws();
        let facts = self.live_count();
        let literals = self.literal_count();
        course.starts.push(Start {
            facts: facts as u64,
            literals: literals as u64,
        })?;
        Ok(())
    }

    /// Makes the round that adds these facts.
    pub(crate) fn make_round(&mut self, base: &Base, list: &[Fact], course: &mut Course) -> Step
        requires here { IsAt base.now self.old course.old state.Open }
        requires round { IsRoundOf base.now self.old.limits.depth (live_facts self.old)
            (literals_on self.old.branch) list.now }
        requires some { list.now ≢ [] }
        requires may { length course.old.starts < self.old.limits.rounds }
        ensures steps { StepsTo base.now self.new course.new result }
        ensures nearer { IsNearer (steps_left self.old course.old) (steps_left self.new course.new)
            result }
        ensures kept { IsKept base.now self.old course.old.waiting self.new
            course.new.waiting }
    {
        match self.begin_round(base, list, course) {
            Ok(()) => self.add_facts(base, list, course),
            Err(_) => Step::Ends(Outcome::Memory),
        }
    }
}
