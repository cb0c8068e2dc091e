//! Writes reports.

ghost use Rattle.std.specs.Prelude.{◌≡◌, ◌++◌, length};
ghost use Rattle.esc_io.specs.Putting.{Delivers};
ghost use Rattle.esc_report.specs.FoundText.{found_text};
ghost use Rattle.esc_report.specs.Text.{HasEachFormula, cause_line, cause_text, facts_text};
ghost use Rattle.esc_report.specs.Text.{form_text, invalid_line, memory_text, place_line};
ghost use Rattle.esc_report.specs.Text.{refusal_text, report_text, unknown_text, valid_line};
ghost use Rattle.esc_report.specs.Text.{why_line};

use crate::found::put_found;
use crate::lines::{put_goal_line, put_place_line, put_three};
use crate::log::put_log;
use crate::report::{Refusal, Report};
use esc_fact::Fact;
use esc_io::{Failed, Sink, put_all};
use esc_names::Names;
use esc_options::Show;
use esc_outcome::Counterexample;
use esc_print::put_number;
use esc_read::FormKind;
use esc_term::Formula;
use esc_verdict::Cause;

// ---- goals that are valid

#[tactic(auto, unfolding(crate::specs::Text::valid_line))]
fn put_valid_line<K: Sink>(goal: u64, sink: &mut K) -> Result<(), Failed>
    ensures { Delivers K.written K.faults sink.old sink.new result (valid_line goal) }
{
    put_goal_line(goal, b": Valid.\n", sink)
}

#[tactic(auto, using(esc_io::proofs::PuttingLemmas::putting))]
fn put_facts<K: Sink>(
    log: &[Fact],
    formulas: &[Formula],
    show: Show,
    names: &Names,
    sink: &mut K,
) -> Result<(), Failed>
    requires { length formulas.now ≡ length log.now }
    ensures { Delivers K.written K.faults sink.old sink.new result
        (facts_text names.now show log.now formulas.now) }
{
    if show.log {
        put_log(log, formulas, names, sink)
    } else {
        Ok(())
    }
}

#[tactic(auto, using(esc_io::proofs::PuttingLemmas::putting))]
fn put_valid<K: Sink>(
    goal: u64,
    log: &[Fact],
    formulas: &[Formula],
    show: Show,
    names: &Names,
    sink: &mut K,
) -> Result<(), Failed>
    requires { length formulas.now ≡ length log.now }
    ensures { Delivers K.written K.faults sink.old sink.new result
        (facts_text names.now show log.now formulas.now ++ valid_line goal) }
{
    put_facts(log, formulas, show, names, sink)?;
    put_valid_line(goal, sink)
}

// ---- goals that are not

#[tactic(auto, unfolding(crate::specs::Text::invalid_line))]
fn put_invalid_line<K: Sink>(goal: u64, sink: &mut K) -> Result<(), Failed>
    ensures { Delivers K.written K.faults sink.old sink.new result (invalid_line goal) }
{
    put_goal_line(goal, b": Invalid.\n", sink)
}

#[tactic(auto, using(esc_io::proofs::PuttingLemmas::putting))]
fn put_invalid<K: Sink>(
    goal: u64,
    found: &Counterexample,
    show: Show,
    names: &Names,
    sink: &mut K,
) -> Result<(), Failed>
    ensures { Delivers K.written K.faults sink.old sink.new result
        (found_text names.now show found.now ++ invalid_line goal) }
{
    put_found(found, show, names, sink)?;
    put_invalid_line(goal, sink)
}

fn cause_text(cause: &Cause) -> &'static [u8]
    ensures { result.now ≡ cause_text cause.now }
{
    match cause {
        Cause::Overflow(..) => b"arithmetic overflow",
        Cause::Pivots(..) => b"pivot limit",
        Cause::Splits(..) => b"split limit",
        Cause::Rounds(..) => b"round limit",
        Cause::Facts(..) => b"fact limit",
    }
}

#[tactic(auto, unfolding(crate::specs::Text::cause_line))]
fn put_cause_line<K: Sink>(cause: &Cause, sink: &mut K) -> Result<(), Failed>
    ensures { Delivers K.written K.faults sink.old sink.new result (cause_line cause.now) }
{
    put_three(b": Unknown (", cause_text(cause), b").\n", sink)
}

#[tactic(auto, using(esc_io::proofs::PuttingLemmas::putting))]
fn put_unknown<K: Sink>(goal: u64, cause: &Cause, sink: &mut K) -> Result<(), Failed>
    ensures { Delivers K.written K.faults sink.old sink.new result (unknown_text goal cause.now) }
{
    put_number(goal, sink)?;
    put_cause_line(cause, sink)
}

// ---- commands that are refused, and want of memory

fn form_text(kind: FormKind) -> &'static [u8]
    ensures { result.now ≡ form_text kind }
{
    match kind {
        FormKind::WrongCount => b"wrong number of arguments",
        FormKind::NotAFormula => b"not a formula",
        FormKind::NotATerm => b"not a term",
        FormKind::NumberTooLarge => b"number too large",
        FormKind::ReservedName => b"reserved name",
        FormKind::DuplicateVariable => b"duplicate variable",
        FormKind::MisplacedPattern => b"misplaced pattern",
        FormKind::EmptyList => b"empty list",
    }
}

fn refusal_text(why: Refusal) -> &'static [u8]
    ensures { result.now ≡ refusal_text why }
{
    match why {
        Refusal::Form(kind) => form_text(kind),
        Refusal::NothingToPop => b"nothing to pop",
        Refusal::Redefined => b"predicate defined already",
    }
}

#[tactic(auto, unfolding(crate::specs::Text::why_line))]
fn put_why_line<K: Sink>(why: Refusal, sink: &mut K) -> Result<(), Failed>
    ensures { Delivers K.written K.faults sink.old sink.new result (why_line why) }
{
    put_three(b": ", refusal_text(why), b".\n", sink)
}

#[tactic(auto, using(esc_io::proofs::PuttingLemmas::putting))]
fn put_refused<K: Sink>(words: &[u8], place: u64, why: Refusal, sink: &mut K) -> Result<(), Failed>
    ensures { Delivers K.written K.faults sink.old sink.new result
        (place_line words.now place (why_line why)) }
{
    put_all(sink, words)?;
    put_number(place, sink)?;
    put_why_line(why, sink)
}

fn put_memory<K: Sink>(goal: Option<u64>, place: u64, sink: &mut K) -> Result<(), Failed>
    ensures { Delivers K.written K.faults sink.old sink.new result (memory_text goal place) }
{
    match goal {
        Some(goal) => put_goal_line(goal, b": Out of memory.\n", sink),
        None => put_place_line(b"Out of memory at byte ", place, b".\n", sink),
    }
}

// ---- reports

/// Writes the text of a report, or a front of it where the sink fails. It takes no memory beyond
/// the sink's own.
#[tactic(auto, unfolding(crate::specs::Text::report_text), using(esc_io::proofs::PuttingLemmas::putting))]
pub fn put_report<K: Sink>(
    report: &Report,
    names: &Names,
    show: Show,
    sink: &mut K,
) -> Result<(), Failed>
    requires { HasEachFormula report.now }
    ensures { Delivers K.written K.faults sink.old sink.new result
        (report_text names.now show report.now) }
{
    match report {
        Report::Valid {
            goal,
            log,
            formulas,
        } => put_valid(
            *goal,
            log.as_slice(),
            formulas.as_slice(),
            show,
            names,
            sink,
        ),
        Report::Invalid { goal, found } => put_invalid(*goal, found, show, names, sink),
        Report::Unknown { goal, cause } => put_unknown(*goal, cause, sink),
        Report::Refused { place, why } => put_refused(b"Refused at byte ", *place, *why, sink),
        Report::Memory { goal, place } => put_memory(*goal, *place, sink),
        Report::Done => Ok(()),
    }
}
