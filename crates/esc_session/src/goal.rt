//! Goals are answered.

ghost use Rattle.std.specs.Prelude.{◌≡◌, ◌<◌, ◌^◌, IfOk, IsTrue};
ghost use Rattle.esc_answers.specs.Answers.{AnswersKind};
ghost use Rattle.esc_form.specs.declared.command.Kind.TheVariants as kind;
ghost use Rattle.esc_report.specs.Goals.{base_of};
ghost use Rattle.esc_report.specs.Text.{HasEachFormula};
ghost use Rattle.esc_session.specs.Acts.{Rests};
ghost use Rattle.esc_session.specs.Between.{IsBetween};
ghost use Rattle.esc_session.specs.Counted.{Tallies};
ghost use Rattle.esc_session.specs.ReportingInside.{AnswersBase, GoalTallies};
ghost use Rattle.esc_session.specs.View.{has_closed, state_of};
ghost use Rattle.esc_term.specs.Formula.{is_closed};

use crate::reporting::sought;
use crate::session::Session;
use esc_fact::Base;
use esc_report::Report;
use esc_search::search_laws;
use esc_term::{Formula, refutation_laws};
use sqlite_items::Boxed;
use std::alloc::AllocError;
use std::mem;

/// Puts this in the place of the negated goal. A call drops what stood there, so that its forms play
/// no role for who asks.
fn ask(base: &mut Base, negated: Option<Formula>)
    ensures { base.new ≡ record base.old { negated = negated } }
{
    drop(mem::replace(&mut base.negated, negated));
}

impl Session {
    /// The report on the goal with this number. It fails only where memory is wanting.
    fn report(&mut self, goal: u64, formula: Formula) -> Result<Report, AllocError>
        requires between { IsBetween self.old }
        requires closed { IsTrue (is_closed formula) }
        ensures answers { IfOk result (AnswersBase self.old.limits
            (base_of self.old.base.background formula) goal) }
        ensures formulas { IfOk result HasEachFormula }
        ensures rests { Rests self.old self.new }
        ensures between { IsBetween self.new }
        ensures tally { GoalTallies (has_closed self.old.batches) result self.old.search.tally
            self.new.search.tally }
        ensures limits { self.new.limits ≡ self.old.limits }
        ensures goals { self.new.goals ≡ self.old.goals }
    {
        search_laws();
        refutation_laws();
        let closed = self.has_closed();
        let negated = Formula::Not(Boxed::new(self.alloc, formula)?);
        ask(&mut self.base, Some(negated));
        let report = sought(self.alloc, closed, &mut self.search, &self.base, goal);
        ask(&mut self.base, None);
        report
    }

    /// Counts a goal and answers it.
    pub(crate) fn answer_goal(&mut self, formula: Formula, place: u64) -> Report
        requires between { IsBetween self.old }
        requires closed { IsTrue (is_closed formula) }
        requires few { self.old.goals < 2 ^ 63 }
        ensures answers { AnswersKind self.old.limits (state_of self.old) place
            (kind.Goal formula) result (state_of self.new) }
        ensures formulas { HasEachFormula result }
        ensures rests { Rests self.old self.new }
        ensures between { IsBetween self.new }
        ensures tally { Tallies (has_closed self.old.batches) result self.old.search.tally
            self.new.search.tally }
        ensures limits { self.new.limits ≡ self.old.limits }
    {
        self.goals += 1;
        let goal = self.goals;
        match self.report(goal, formula) {
            Ok(report) => report,
            Err(_) => Report::Memory {
                goal: Some(goal),
                place,
            },
        }
    }
}
