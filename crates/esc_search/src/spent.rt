//! What is told where a limit is met.

ghost use Rattle.std.specs.Prelude.{◌≡◌, ◌≤◌, ◌∷◌, [], IfOk, Some, length};
ghost use Rattle.std.specs.List.{Contains};
ghost use Rattle.esc_clause.specs.Refinement.{next_split};
ghost use Rattle.esc_egraph.specs.declared.state.State.TheVariants as state;
ghost use Rattle.esc_fact.specs.Legal.{made_facts};
ghost use Rattle.esc_live.specs.View.{judge_on, literals_on};
ghost use Rattle.esc_refine.specs.Refining.{IsQuiet, SplitsAt};
ghost use Rattle.esc_search.specs.Proving.{IsSaturatedHere, IsStopped, live_facts};
ghost use Rattle.esc_search.specs.SearchInside.{IsAmid, IsOpenHere, IsSearch};
ghost use Rattle.esc_verdict.specs.Rounds.{IsRoundOf};

use crate::course::Course;
use crate::search::Search;
use esc_clause::Occurrence;
use esc_fact::{Base, Fact};
use esc_sharing::unquantified_laws;
use esc_term::Copied;
use esc_verdict::{Cause, RoundsMade};
use sqlite_items::Items;
use std::alloc::AllocError;

impl Search {
    /// What is told where there are as many splits as are allowed, and this would be the next.
    pub(crate) fn out_of_splits(
        &self,
        base: &Base,
        course: &Course,
        at: Occurrence,
    ) -> Result<Cause, AllocError>
        requires search { IsSearch base.now self.now course.now }
        requires here { IsOpenHere base.now self.now course.now.starts [] }
        requires quiet { IsQuiet self.now.branch }
        requires saturated { IsSaturatedHere base.now self.now }
        requires next { next_split (judge_on self.now.branch) self.now.branch.clauses ≡ Some at }
        requires splits { SplitsAt self.now.branch (Some at) }
        requires spent { self.now.limits.splits ≤ length self.now.splits }
        ensures { IfOk result (λ cause. IsStopped base.now self.now cause) }
    {
        let _base = base;
        let _course = course;
        let branch = self.kept()?;
        Ok(Cause::Splits(branch, at))
    }

    /// What is told where as many facts are logged as are allowed, and this would be the next.
    pub(crate) fn out_of_facts(
        &self,
        base: &Base,
        fact: &Fact,
        coming: &[Fact],
        course: &Course,
    ) -> Result<Cause, AllocError>
        requires here { IsAmid base.now self.now course.now (fact.now ∷ coming.now) state.Open }
        requires new { Contains self.now.log fact.now → ⊥ }
        requires spent { self.now.limits.facts ≤ length (made_facts self.now.log) }
        ensures { IfOk result (λ cause. IsStopped base.now self.now cause) }
    {
        let _base = base;
        let _coming = coming;
        let _course = course;
        let branch = self.kept()?;
        let next = fact.copied(self.alloc)?;
        Ok(Cause::Facts(branch, next))
    }

    /// What is told where the branch at hand has had as many rounds as are allowed, and another
    /// would add these facts.
    pub(crate) fn out_of_rounds(
        &self,
        base: &Base,
        next: &Fact,
        rest: &[Fact],
        course: &Course,
    ) -> Result<Cause, AllocError>
        requires search { IsSearch base.now self.now course.now }
        requires here { IsOpenHere base.now self.now course.now.starts [] }
        requires quiet { IsQuiet self.now.branch }
        requires round { IsRoundOf base.now self.now.limits.depth (live_facts self.now)
            (literals_on self.now.branch) (next.now ∷ rest.now) }
        requires spent { self.now.limits.rounds ≤ length course.now.starts }
        ensures { IfOk result (λ cause. IsStopped base.now self.now cause) }
    {
        let _base = base;
        let _rest = rest;
        unquantified_laws();
        let branch = self.kept()?;
        let live = self.live()?;
        let literals = self.branch.items()?;
        let starts = Items::from_slice(self.alloc, course.starts.as_slice())?;
        let next = next.copied(self.alloc)?;
        Ok(Cause::Rounds(
            branch,
            RoundsMade {
                live,
                literals,
                starts,
                next,
            },
        ))
    }
}
