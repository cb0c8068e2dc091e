//! Predicates are defined.

ghost use Rattle.std.specs.Prelude.{IsTrue, OnErr, OnOk, Some, [], ◌∷◌};
ghost use Rattle.esc_answers.specs.Answers.{AnswersKind};
ghost use Rattle.esc_form.specs.declared.command.Kind.TheVariants as kind;
ghost use Rattle.esc_report.specs.Text.{HasEachFormula};
ghost use Rattle.esc_session.specs.Acts.{Acts, Joins, Rests};
ghost use Rattle.esc_session.specs.Between.{IsBetween};
ghost use Rattle.esc_session.specs.Counted.{Tallies};
ghost use Rattle.esc_session.specs.SessionInside.{LeavesRest};
ghost use Rattle.esc_session.specs.View.{has_closed, state_of};
ghost use Rattle.esc_term.specs.Formula.{is_closed};

use crate::session::Session;
use esc_report::{Refusal, Report};
use esc_term::{Formula, Sym};
use sqlite_items::Items;
use std::alloc::AllocError;

impl Session {
    /// Assumes the rule of a predicate as a batch of its own. It fails only where memory is
    /// wanting.
    fn push_rule(&mut self, name: Sym, count: u64, rule: Formula) -> Result<(), AllocError>
        requires between { IsBetween self.old }
        requires closed { IsTrue (is_closed rule) }
        ensures joins { OnOk result (Joins self.old self.new (Some (name, count)) (rule ∷ [])) }
        ensures rests { OnErr result (Rests self.old self.new) }
        ensures between { IsBetween self.new }
        ensures leaves { LeavesRest self.old self.new }
    {
        let mut formulas = Items::new(self.alloc);
        formulas.push(rule)?;
        self.push(Some((name, count)), formulas)
    }

    /// Assumes the rule of a predicate, where none is in force.
    pub(crate) fn define(
        &mut self,
        name: Sym,
        count: u64,
        name_place: u64,
        rule: Formula,
        place: u64,
    ) -> Report
        requires between { IsBetween self.old }
        requires closed { IsTrue (is_closed rule) }
        ensures answers { AnswersKind self.old.limits (state_of self.old) place
            (kind.Define name count name_place (Some rule)) result (state_of self.new) }
        ensures formulas { HasEachFormula result }
        ensures acts { Acts (kind.Define name count name_place (Some rule)) result self.old
            self.new }
        ensures between { IsBetween self.new }
        ensures tally { Tallies (has_closed self.old.batches) result self.old.search.tally
            self.new.search.tally }
        ensures leaves { LeavesRest self.old self.new }
    {
        if self.is_defined(name, count) {
            drop(rule);
            let why = Refusal::Redefined;
            return Report::Refused {
                place: name_place,
                why,
            };
        }
        match self.push_rule(name, count, rule) {
            Ok(()) => Report::Done,
            Err(_) => Report::Memory { goal: None, place },
        }
    }
}
