//! Commands are carried out.

ghost use Rattle.std.specs.Prelude.{◌≡◌, ◌<◌, ◌≤◌, ◌+◌, ◌^◌, IsTrue};
ghost use Rattle.std.specs.List.{list_all};
ghost use Rattle.esc_answers.specs.Answers.{Answers, AnswersKind};
ghost use Rattle.esc_form.specs.Laws.{IsClosedKind};
ghost use Rattle.esc_form.specs.declared.command.Kind.TheVariants as kind;
ghost use Rattle.esc_report.specs.Text.{HasEachFormula};
ghost use Rattle.esc_session.specs.Acts.{Acts};
ghost use Rattle.esc_session.specs.Between.{IsBetween};
ghost use Rattle.esc_session.specs.Counted.{Tallies};
ghost use Rattle.esc_session.specs.SessionInside.{LeavesRest};
ghost use Rattle.esc_session.specs.View.{has_closed, state_of};
ghost use Rattle.esc_term.specs.Formula.{is_closed};

use crate::session::Session;
use esc_form::{Command, Kind};
use esc_report::{Refusal, Report};
use esc_term::Formulas;

impl Session {
    /// Assumes what is pushed.
    fn answer_push(&mut self, formulas: Formulas, place: u64) -> Report
        requires between { IsBetween self.old }
        requires closed { IsTrue (list_all is_closed formulas) }
        ensures answers { AnswersKind self.old.limits (state_of self.old) place
            (kind.Push formulas) result (state_of self.new) }
        ensures formulas { HasEachFormula result }
        ensures acts { Acts (kind.Push formulas) result self.old self.new }
        ensures between { IsBetween self.new }
        ensures tally { Tallies (has_closed self.old.batches) result self.old.search.tally
            self.new.search.tally }
        ensures leaves { LeavesRest self.old self.new }
    {
        match self.push(None, formulas) {
            Ok(()) => Report::Done,
            Err(_) => Report::Memory { goal: None, place },
        }
    }

    /// Ends the newest push, where there is one.
    fn answer_pop(&mut self, place: u64) -> Report
        requires between { IsBetween self.old }
        ensures answers { AnswersKind self.old.limits (state_of self.old) place kind.Pop result
            (state_of self.new) }
        ensures formulas { HasEachFormula result }
        ensures acts { Acts kind.Pop result self.old self.new }
        ensures between { IsBetween self.new }
        ensures tally { Tallies (has_closed self.old.batches) result self.old.search.tally
            self.new.search.tally }
        ensures leaves { LeavesRest self.old self.new }
    {
        if !self.has_push() {
            let why = Refusal::NothingToPop;
            return Report::Refused { place, why };
        }
        self.pop();
        Report::Done
    }

    /// Carries out a command and answers it. A push or a rule asserts its formulas at once, in a
    /// level of its own; a goal is proved by the session's own search, which then goes back to
    /// where it stood; a pop goes back to where the newest push began. A command that is refused,
    /// or for which memory is wanting, leaves all in force.
    pub fn command(&mut self, command: Command) -> Report
        requires between { IsBetween self.old }
        requires closed { IsClosedKind command.kind }
        requires few { self.old.goals < 2 ^ 63 }
        ensures answers { Answers (state_of self.old) command self.old.limits result
            (state_of self.new) }
        ensures formulas { HasEachFormula result }
        ensures acts { Acts command.kind result self.old self.new }
        ensures between { IsBetween self.new }
        ensures tally { Tallies (has_closed self.old.batches) result self.old.search.tally
            self.new.search.tally }
        ensures counted { self.new.goals ≤ self.old.goals + 1 }
        ensures limits { self.new.limits ≡ self.old.limits }
    {
        let place = command.place;
        let kind = command.kind;
        match kind {
            Kind::Goal(formula) => self.answer_goal(formula, place),
            Kind::Push(formulas) => self.answer_push(formulas, place),
            Kind::Pop => self.answer_pop(place),
            Kind::Define {
                name,
                count,
                name_place,
                rule,
            } => match rule {
                Some(rule) => self.define(name, count, name_place, rule, place),
                None => Report::Done,
            },
            Kind::Prompt => Report::Done,
        }
    }
}
