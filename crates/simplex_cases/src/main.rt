//! Scripts of restrictions on terms, whose answers were worked by hand.
//!
//! Each line of the standard input is a task, and each is printed with what it comes to. Lines
//! without words and lines that begin with `;` are printed as they are. An unknown is told by its
//! number.
//!
//! | Task | What it comes to |
//! |---|---|
//! | `simplex N` | no restrictions, for the tasks that follow; a maximising may take N pivots |
//! | `mark` | how many marks there are with this one |
//! | `pop` | how many there are when all since the newest one, and it, were taken back |
//! | `unknown T` | an unknown for the term |
//! | `value T` | the value of an unknown for the term |
//! | `nonnegative T` | whether the restrictions allow the term to be at least 0, as it then is |
//! | `most S T` | the same of T less S |
//! | `less S T` | the same of T less S less 1 |
//! | `equal S T` | the same of T less S and S less T |
//! | `part S T` | whether the two can have different values |
//! | `apart S T` | the same, after which the rows from before it are put again |
//! | `bind N T` | the node has an unknown for the term, where it had none |
//! | `node N` | the unknown of the node |
//!
//! Terms are written with what is applied behind its two arguments: numbers, names of one letter,
//! `+`, `-` and `*`. Where a call is given up, the step that spills is told, or the limit, with
//! the unknown that was being maximised.
#![tactic(auto)]

ghost use Rattle.simplex_cases.specs.Undoable.{IsUndoable};

mod level;
mod script;
mod tasks;
mod undoing;
mod words;

use crate::script::Script;
use crate::words::words_of;
use std::alloc::{AllocError, Global};
use std::io;

/// What a line comes to. Its first word is the task.
fn answer(alloc: Global, script: &mut Script, words: &[&str]) -> Result<Option<String>, AllocError>
    requires { IsUndoable script.old }
    ensures { IsUndoable script.new }
{
    let Some((task, operands)) = words.split_first() else {
        return Ok(None);
    };
    tasks::answer(alloc, script, task, operands)
}

fn answer_line(rt: &HostRuntime, alloc: Global, script: &mut Script, line: &str) -> io::Result<()>
    requires { IsUndoable script.old }
    ensures { IsUndoable script.new }
{
    if line.is_empty() || line.starts_with(';') {
        return println!(rt; "{line}");
    }
    match answer(alloc, script, &words_of(alloc, line)?)? {
        Some(answer) => println!(rt; "{line}: {answer}"),
        None => println!(rt; "{line}: no task"),
    }
}

fn answer_all(rt: &HostRuntime, alloc: Global, script: &mut Script) -> io::Result<()>
    requires { IsUndoable script.old }
{
    'lines: for line in rt.lines(alloc) {
        answer_line(rt, alloc, script, line?.as_str())?;
    }
    Ok(())
}

fn main(rt: HostRuntime) -> io::Result<()> {
    let mut script = Script::new(rt.alloc(), 0);
    answer_all(&rt, rt.alloc(), &mut script)
}
