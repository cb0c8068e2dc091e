//! Tasks on a script, and what they come to.

ghost use Rattle.sharing_cases.specs.Undoable.{IsUndoable};

use crate::end::{End, end_text};
use crate::script::Script;
use crate::words::terms_of;
use esc_egraph::Node;
use esc_sharing::{Lit, Theory};
use esc_simplex::Stop;
use esc_term::Term;
use esc_trail::Undoable;
use std::alloc::{AllocError, Global};

/// What a task comes to.
#[derive(Clone, Copy)]
enum Outcome {
    Open,
    Number(usize),
    AreOne(bool),
}

/// The text of what a task comes to.
pub fn answer<T: Theory + Undoable<Rec = Q> + Drop, Q: Copy>(
    alloc: Global,
    script: &mut Script<T, Q>,
    task: &str,
    operands: &[&str],
) -> Result<Option<String>, AllocError>
    requires { IsUndoable T.undo T.sound T.admits T.numbers script.old }
    ensures { IsUndoable T.undo T.sound T.admits T.numbers script.new }
{
    match task {
        "mark" => told(alloc, script.mark().map(Outcome::Number)),
        "pop" => told(alloc, script.pop().map(Outcome::Number)),
        "numbers" => told(alloc, Ok(Outcome::Number(script.numbers()))),
        _ => of_terms(alloc, script, task, operands),
    }
}

fn of_terms<T: Theory + Undoable<Rec = Q> + Drop, Q: Copy>(
    alloc: Global,
    script: &mut Script<T, Q>,
    task: &str,
    operands: &[&str],
) -> Result<Option<String>, AllocError>
    requires { IsUndoable T.undo T.sound T.admits T.numbers script.old }
    ensures { IsUndoable T.undo T.sound T.admits T.numbers script.new }
{
    let terms = terms_of(alloc, operands)?;
    let end = of_some(alloc, script, task, &terms);
    told(alloc, end)
}

fn of_some<T: Theory + Undoable<Rec = Q> + Drop, Q: Copy>(
    alloc: Global,
    script: &mut Script<T, Q>,
    task: &str,
    terms: &[Term],
) -> Result<Outcome, End>
    requires { IsUndoable T.undo T.sound T.admits T.numbers script.old }
    ensures { IsUndoable T.undo T.sound T.admits T.numbers script.new }
{
    match terms {
        _ if task == "group" => of_all(alloc, script, terms),
        [term] => of_one(script, task, term),
        [first, second] => of_two(script, task, first, second),
        _ => Err(End::NoTask),
    }
}

fn of_all<T: Theory + Undoable<Rec = Q> + Drop, Q: Copy>(
    alloc: Global,
    script: &mut Script<T, Q>,
    terms: &[Term],
) -> Result<Outcome, End>
    requires { IsUndoable T.undo T.sound T.admits T.numbers script.old }
    ensures { IsUndoable T.undo T.sound T.admits T.numbers script.new }
{
    let mut nodes = Vec::new(alloc);
    'terms: for term in terms {
        let node = script.add(term, false)?;
        if nodes.push(node).is_err() {
            return Err(End::Stopped(Stop::Memory));
        }
    }
    script.assert_group(&nodes)?;
    Ok(Outcome::Open)
}

fn of_one<T: Theory + Undoable<Rec = Q> + Drop, Q: Copy>(
    script: &mut Script<T, Q>,
    task: &str,
    term: &Term,
) -> Result<Outcome, End>
    requires { IsUndoable T.undo T.sound T.admits T.numbers script.old }
    ensures { IsUndoable T.undo T.sound T.admits T.numbers script.new }
{
    match task {
        "term" => {
            script.add(term, false)?;
            Ok(Outcome::Open)
        }
        _ => Err(End::NoTask),
    }
}

fn of_two<T: Theory + Undoable<Rec = Q> + Drop, Q: Copy>(
    script: &mut Script<T, Q>,
    task: &str,
    first: &Term,
    second: &Term,
) -> Result<Outcome, End>
    requires { IsUndoable T.undo T.sound T.admits T.numbers script.old }
    ensures { IsUndoable T.undo T.sound T.admits T.numbers script.new }
{
    match task {
        "same" => Ok(Outcome::AreOne(script.same(first, second)?)),
        "equal" | "apart" => of_sides(script, task, first, second, false),
        "less" | "atmost" => of_sides(script, task, first, second, true),
        _ => Err(End::NoTask),
    }
}

fn of_sides<T: Theory + Undoable<Rec = Q> + Drop, Q: Copy>(
    script: &mut Script<T, Q>,
    task: &str,
    first: &Term,
    second: &Term,
    order: bool,
) -> Result<Outcome, End>
    requires { IsUndoable T.undo T.sound T.admits T.numbers script.old }
    ensures { IsUndoable T.undo T.sound T.admits T.numbers script.new }
{
    let a = script.add(first, order)?;
    let b = script.add(second, order)?;
    script.assert(literal(task, a, b))?;
    Ok(Outcome::Open)
}

/// The literal that the task asserts.
fn literal(task: &str, a: Node, b: Node) -> Lit {
    match task {
        "equal" => Lit::Equal(a, b),
        "apart" => Lit::Apart(a, b),
        "less" => Lit::Below(a, b),
        _ => Lit::AtMost(a, b),
    }
}

fn told(alloc: Global, end: Result<Outcome, End>) -> Result<Option<String>, AllocError> {
    match end {
        Ok(outcome) => Ok(Some(outcome_text(alloc, outcome)?)),
        Err(end) => {
            let text = end_text(alloc, &end);
            drop(end);
            text
        }
    }
}

fn outcome_text(alloc: Global, outcome: Outcome) -> Result<String, AllocError> {
    match outcome {
        Outcome::Open => String::from_str(alloc, "open"),
        Outcome::Number(number) => format!(in alloc; "{number}"),
        Outcome::AreOne(true) => String::from_str(alloc, "one class"),
        Outcome::AreOne(false) => String::from_str(alloc, "two classes"),
    }
}
