//! Tasks on a script, and what they come to.

ghost use Rattle.simplex_cases.specs.Undoable.{IsUndoable};

use crate::script::Script;
use crate::words::{number_at, terms_of};
use esc_egraph::{Node, State};
use esc_frac::Frac;
use esc_simplex::{Jammed, Parted, Stop};
use esc_tableau::{Step, Unknown};
use esc_term::Term;
use std::alloc::{AllocError, Global};

/// What a task comes to.
#[derive(Clone, Copy)]
enum Outcome {
    Number(usize),
    Value { num: i128, den: i128 },
    State(State),
    Parted(Parted),
    IsNew(bool),
}

/// The text of what a task comes to.
pub fn answer(
    alloc: Global,
    script: &mut Script,
    task: &str,
    operands: &[&str],
) -> Result<Option<String>, AllocError>
    requires { IsUndoable script.old }
    ensures { IsUndoable script.new }
{
    match task {
        "simplex" => begun(alloc, script, operands),
        "mark" => numbered(alloc, Some(script.mark()?)),
        "pop" => numbered(alloc, script.pop()),
        "node" => unknown_of(alloc, script, operands),
        "bind" => bound(alloc, script, operands),
        _ => of_terms(alloc, script, task, operands),
    }
}

fn numbered(alloc: Global, number: Option<usize>) -> Result<Option<String>, AllocError> {
    let Some(number) = number else {
        return Ok(None);
    };
    Ok(Some(format!(in alloc; "{number}")?))
}

fn begun(
    alloc: Global,
    script: &mut Script,
    operands: &[&str],
) -> Result<Option<String>, AllocError>
    requires { IsUndoable script.old }
    ensures { IsUndoable script.new }
{
    let Some(pivots) = number_at(operands, 0) else {
        return Ok(None);
    };
    *script = Script::new(alloc, pivots as u64);
    Ok(Some(String::from_str(alloc, "no restrictions")?))
}

fn unknown_of(
    alloc: Global,
    script: &Script,
    operands: &[&str],
) -> Result<Option<String>, AllocError> {
    let Some(node) = number_at(operands, 0) else {
        return Ok(None);
    };
    match script.unknown_of(Node::new(node)) {
        Some(unknown) => numbered(alloc, Some(unknown.number())),
        None => Ok(Some(String::from_str(alloc, "none")?)),
    }
}

fn bound(
    alloc: Global,
    script: &mut Script,
    operands: &[&str],
) -> Result<Option<String>, AllocError>
    requires { IsUndoable script.old }
    ensures { IsUndoable script.new }
{
    let (Some(node), Some((_, words))) = (number_at(operands, 0), operands.split_first()) else {
        return Ok(None);
    };
    let terms = terms_of(alloc, words)?;
    told(alloc, bind_first(script, Node::new(node), &terms))
}

fn bind_first(script: &mut Script, node: Node, terms: &[Term]) -> Option<Result<Outcome, Stop>>
    requires { IsUndoable script.old }
    ensures { IsUndoable script.new }
{
    let [term] = terms else {
        return None;
    };
    Some(script.bind(node, term).map(Outcome::IsNew))
}

fn of_terms(
    alloc: Global,
    script: &mut Script,
    task: &str,
    operands: &[&str],
) -> Result<Option<String>, AllocError>
    requires { IsUndoable script.old }
    ensures { IsUndoable script.new }
{
    let terms = terms_of(alloc, operands)?;
    told(alloc, of_some(script, task, &terms))
}

fn of_some(script: &mut Script, task: &str, terms: &[Term]) -> Option<Result<Outcome, Stop>>
    requires { IsUndoable script.old }
    ensures { IsUndoable script.new }
{
    match terms {
        [term] => of_one(script, task, term),
        [first, second] => of_two(script, task, first, second),
        _ => None,
    }
}

fn of_one(script: &mut Script, task: &str, term: &Term) -> Option<Result<Outcome, Stop>>
    requires { IsUndoable script.old }
    ensures { IsUndoable script.new }
{
    match task {
        "unknown" => Some(script.unknown(term).map(number_of)),
        "value" => Some(script.value(term).map(value_of)),
        "nonnegative" => Some(script.at_least_zero(term).map(Outcome::State)),
        _ => None,
    }
}

fn of_two(
    script: &mut Script,
    task: &str,
    first: &Term,
    second: &Term,
) -> Option<Result<Outcome, Stop>>
    requires { IsUndoable script.old }
    ensures { IsUndoable script.new }
{
    match task {
        "most" => Some(script.order(first, second, false).map(Outcome::State)),
        "less" => Some(script.order(first, second, true).map(Outcome::State)),
        "equal" => Some(script.equal(first, second).map(Outcome::State)),
        "part" => Some(script.part(first, second).map(Outcome::Parted)),
        "apart" => Some(script.part_apart(first, second).map(Outcome::Parted)),
        _ => None,
    }
}

fn number_of(unknown: Unknown) -> Outcome {
    Outcome::Number(unknown.number())
}

fn value_of(value: Frac) -> Outcome {
    Outcome::Value {
        num: value.num(),
        den: value.den(),
    }
}

fn told(alloc: Global, end: Option<Result<Outcome, Stop>>) -> Result<Option<String>, AllocError> {
    match end {
        None => Ok(None),
        Some(Ok(outcome)) => Ok(Some(outcome_text(alloc, outcome)?)),
        Some(Err(stop)) => {
            let text = stop_text(alloc, &stop);
            drop(stop);
            Ok(Some(text?))
        }
    }
}

fn outcome_text(alloc: Global, outcome: Outcome) -> Result<String, AllocError> {
    match outcome {
        Outcome::Number(number) => format!(in alloc; "{number}"),
        Outcome::Value { num, den: 1 } => format!(in alloc; "{num}"),
        Outcome::Value { num, den } => format!(in alloc; "{num}/{den}"),
        Outcome::State(State::Open) => String::from_str(alloc, "open"),
        Outcome::State(State::Closed) => String::from_str(alloc, "closed"),
        Outcome::Parted(Parted::Equal) => String::from_str(alloc, "equal"),
        Outcome::Parted(Parted::Different) => String::from_str(alloc, "different"),
        Outcome::IsNew(true) => String::from_str(alloc, "bound"),
        Outcome::IsNew(false) => String::from_str(alloc, "not new"),
    }
}

fn stop_text(alloc: Global, stop: &Stop) -> Result<String, AllocError> {
    match stop {
        Stop::Spill(jammed) => spill_text(alloc, jammed.unknown, jammed.step),
        Stop::Form(_) => String::from_str(alloc, "the form spills"),
        Stop::Pivots(jammed) => spent_text(alloc, jammed),
        Stop::Memory => Err(AllocError),
    }
}

fn spent_text(alloc: Global, jammed: &Jammed) -> Result<String, AllocError> {
    let limit = jammed.limit;
    match jammed.unknown {
        Some(unknown) => format!(in alloc; "more than {limit} pivots for {}", unknown.number()),
        None => format!(in alloc; "more than {limit} pivots"),
    }
}

fn spill_text(alloc: Global, unknown: Option<Unknown>, step: Step) -> Result<String, AllocError> {
    let step = step_text(alloc, step)?;
    match unknown {
        Some(unknown) => format!(in alloc; "{step} spills for {}", unknown.number()),
        None => format!(in alloc; "{step} spills"),
    }
}

fn step_text(alloc: Global, step: Step) -> Result<String, AllocError> {
    match step {
        Step::Row => String::from_str(alloc, "the row"),
        Step::Ratio { row, column } => {
            format!(in alloc; "the ratio of {} and {}", row.number(), column.number())
        }
        Step::Pivot { row, column } => {
            format!(in alloc; "the pivot of {} and {}", row.number(), column.number())
        }
    }
}
