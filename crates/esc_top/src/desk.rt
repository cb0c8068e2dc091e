//! Answers expressions one by one.

ghost use Rattle.std.specs.Prelude.{◌≡◌, ◌+◌, ◌<◌, ◌≤◌, ◌^◌, IfOk};
ghost use Rattle.esc_io.specs.Faults.{HasCause};
ghost use Rattle.esc_names.specs.Rows.{HasDistinctRows};
ghost use Rattle.esc_read.specs.Reading.{Extends};
ghost use Rattle.esc_report.specs.Text.{HasEachFormula};
ghost use Rattle.esc_top.specs.Answers.{AnswersExpression};
ghost use Rattle.esc_top.specs.DeskInside.{IsInOrder, IsNew};
ghost use Rattle.esc_top.specs.Told.{is_proved_report};
ghost use Rattle.esc_top.specs.Underway.{AnswersOne, state_of};

use esc_form::{FormStop, read_command, reading_laws};
use esc_io::{Failed, Sink};
use esc_names::Names;
use esc_options::Options;
use esc_read::place_of;
use esc_report::{Refusal, Report, put_report};
use esc_session::Session;
use esc_sexp::Sexp;
use std::alloc::{AllocError, Global};

/// What is kept from one expression to the next.
#[derive(Drop)]
pub struct Desk {
    alloc: Global,
    /// How far each search goes, and what is printed beside the answers.
    pub options: Options,
    /// The names that were used so far.
    pub names: Names,
    /// What is in force, and the search that answers all goals.
    pub session: Session,
    /// Whether each report so far says that a goal is valid or a command carried out.
    pub all_proved: bool,
}

fn is_proved_report(report: &Report) -> bool
    ensures { result ≡ is_proved_report report.now }
{
    matches!(report, Report::Valid { .. } | Report::Done)
}

impl Desk {
    pub fn new(alloc: Global, options: Options) -> Result<Desk, AllocError>
        ensures { IfOk result (IsNew options) }
    {
        let names = Names::new(alloc)?;
        let session = Session::new(alloc, options.limits)?;
        Ok(Desk {
            alloc,
            options,
            names,
            session,
            all_proved: true,
        })
    }

    fn answer(&mut self, sexp: &Sexp) -> Report
        requires order { IsInOrder self.old }
        requires few { self.old.session.goals < 2 ^ 63 }
        ensures answers { AnswersExpression self.old.options.limits self.new.names
            (state_of self.old) sexp.now result (state_of self.new) }
        ensures formulas { HasEachFormula result }
        ensures options { self.new.options ≡ self.old.options }
        ensures names { Extends self.old.names self.new.names }
        ensures distinct { HasDistinctRows self.new.names }
        ensures order { IsInOrder self.new }
        ensures counted { self.new.session.goals ≤ self.old.session.goals + 1 }
        ensures clean { self.new.all_proved ≡ self.old.all_proved }
    {
        reading_laws();
        let read = read_command(self.alloc, sexp, &mut self.names);
        self.names.rows_differ();
        match read {
            Ok(command) => self.session.command(command),
            Err(FormStop::Fault(fault)) => Report::Refused {
                place: fault.place,
                why: Refusal::Form(fault.kind),
            },
            Err(FormStop::Memory) => Report::Memory {
                goal: None,
                place: place_of(sexp),
            },
        }
    }

    /// Answers an expression and writes the text of the answer.
    pub fn tell<K: Sink>(&mut self, sexp: &Sexp, sink: &mut K) -> Result<(), Failed>
        requires order { IsInOrder self.old }
        requires few { self.old.session.goals < 2 ^ 63 }
        ensures answers { AnswersOne self.old self.new sexp.now (K.written sink.old)
            (K.written sink.new) result }
        ensures order { IsInOrder self.new }
        ensures cause { HasCause (K.faults sink.old) (K.faults sink.new) result }
    {
        let report = self.answer(sexp);
        self.all_proved = self.all_proved && is_proved_report(&report);
        let put = put_report(&report, &self.names, self.options.show, sink);
        // in a call, so that the many forms of reports play no part here
        drop(report);
        put
    }
}
