//! The facts of the next round.

ghost use Rattle.std.specs.Prelude.{◌≡◌, [], map, IfOk};
ghost use Rattle.std.specs.List.{All};
ghost use Rattle.esc_egraph.specs.Graph.{IsGraph};
ghost use Rattle.esc_live.specs.View.{literals_on};
ghost use Rattle.esc_rounds.specs.Branch.{IsStanding};
ghost use Rattle.esc_rounds.specs.Facts.{fact_of};
ghost use Rattle.esc_rounds.specs.Standing.{IsDrawable, IsReady};
ghost use Rattle.esc_standing.specs.Standing.{live_in, standing_in};
ghost use Rattle.esc_verdict.specs.Rounds.{IsRoundOf};
ghost use Rattle.esc_search.specs.Proving.{live_facts};
ghost use Rattle.esc_search.specs.SearchInside.{IsOpenHere, IsSearch};

use crate::course::Course;
use crate::search::Search;
use esc_egraph::EGraph;
use esc_fact::{Base, Facts};
use esc_rounds::{Draw, Kept, fact_of, round};
use esc_sharing::unquantified_laws;
use esc_standing::{Survey, survey_of};
use sqlite_items::Items;
use std::alloc::{AllocError, Global};

impl Search {
    /// What the next round of the branch at hand begins with. It fails only where memory is
    /// wanting.
    fn survey(&self, base: &Base, course: &Course) -> Result<Survey, AllocError>
        requires search { IsSearch base.now self.now course.now }
        requires here { IsOpenHere base.now self.now course.now.starts [] }
        ensures standing { IfOk result (λ survey. IsStanding base.now (live_facts self.now)
            (literals_on self.now.branch)
            (standing_in self.now.branch.sharing.graph survey) (live_in survey)) }
        ensures ready { IfOk result (λ survey. IsReady
            (standing_in self.now.branch.sharing.graph survey) (live_in survey)) }
    {
        let _course = course;
        let items = self.branch.items()?;
        survey_of(
            self.alloc,
            base,
            self.branch.sharing.graph(),
            self.log.list(),
            self.branch.book.formulas().as_slice(),
            self.branch.book.live(),
            items.as_slice(),
        )
    }

    /// The facts that the next round of the branch at hand adds, in their order: none where it is
    /// saturated. It fails only where memory is wanting.
    pub(crate) fn next_round(&self, base: &Base, course: &Course) -> Result<Facts, AllocError>
        requires search { IsSearch base.now self.now course.now }
        requires here { IsOpenHere base.now self.now course.now.starts [] }
        ensures { IfOk result (IsRoundOf base.now self.now.limits.depth (live_facts self.now)
            (literals_on self.now.branch)) }
    {
        unquantified_laws();
        let survey = self.survey(base, course)?;
        let graph = self.branch.sharing.graph();
        let branch = survey.branch(graph);
        let draws = round(self.alloc, &branch, survey.live(), self.limits.depth)?;
        facts_of(self.alloc, graph, branch.formulas, draws.as_slice())
    }
}

/// The facts that are drawn, where these are the quantified formulas. It fails only where memory is
/// wanting.
fn facts_of(
    alloc: Global,
    graph: &EGraph,
    formulas: &[Kept],
    draws: &[Draw],
) -> Result<Facts, AllocError>
    requires graph { IsGraph graph.now }
    requires drawable { All (IsDrawable graph.now formulas.now) draws.now }
    ensures { IfOk result (λ facts. facts ≡ map (fact_of graph.now formulas.now) draws.now) }
{
    let mut facts = Items::new(alloc);
    'draws: for draw in draws {
        facts.push(fact_of(alloc, graph, formulas, draw)?)?;
    }
    Ok(facts)
}
