//! Scripts of literals that a graph shares with the arithmetic, or with a theory of constants. The
//! answers were worked by hand.
//!
//! Each line of the standard input is a task, and each is printed with what it comes to. Lines
//! without words and lines that begin with `;` are printed as they are.
//!
//! | Task | What it comes to |
//! |---|---|
//! | `sharing N` | nothing is asserted, for the tasks that follow; a maximising may take N pivots |
//! | `constants` | nothing is asserted, and terms are arithmetic only where they come to a number |
//! | `mark` | how many marks there are with this one |
//! | `pop` | how many there are when all since the newest one, and it, were taken back |
//! | `term T` | the term comes in play |
//! | `equal S T`, `apart S T` | the two are equal, or they differ |
//! | `less S T`, `atmost S T` | S is less than T, or not greater |
//! | `group T T ..` | the terms at any two places differ |
//! | `same S T` | whether the two terms in play stand in one class |
//! | `numbers` | how many terms are arithmetic |
//!
//! Terms are written with what is applied behind its arguments: numbers, `+`, `-` and `*` with two
//! arguments, and names of one letter with the number of their arguments, `f1`, which may be left
//! out where there are none. Literals bring their terms in play, those of a literal and a group in
//! order. What is asserted is `open`, or it is `closed`, or the call is given up, and then which
//! numbers spill is told, or the limit; over constants the form of a term that comes to no number
//! spills. After that only `sharing`, `constants` and `pop` are taken, `same` and `numbers`.
#![tactic(auto)]

ghost use Rattle.sharing_cases.specs.Undoable.{IsKept};

mod constants;
mod end;
mod kept;
mod script;
mod tasks;
mod words;

use crate::kept::Kept;
use crate::words::words_of;
use std::alloc::{AllocError, Global};
use std::io;

/// What a line comes to. Its first word is the task.
fn answer(alloc: Global, kept: &mut Kept, words: &[&str]) -> Result<Option<String>, AllocError>
    requires { IsKept kept.old }
    ensures { IsKept kept.new }
{
    let Some((task, operands)) = words.split_first() else {
        return Ok(None);
    };
    match *task {
        "sharing" => begun(alloc, kept, operands),
        "constants" => begun_with_constants(alloc, kept),
        _ => kept.answer(alloc, task, operands),
    }
}

fn begun(alloc: Global, kept: &mut Kept, operands: &[&str]) -> Result<Option<String>, AllocError>
    requires { IsKept kept.old }
    ensures { IsKept kept.new }
{
    let Some(Ok(pivots)) = operands.first().map(|word| word.parse::<u64>()) else {
        return Ok(None);
    };
    *kept = Kept::rows(alloc, pivots)?;
    Ok(Some(String::from_str(alloc, "nothing is asserted")?))
}

fn begun_with_constants(alloc: Global, kept: &mut Kept) -> Result<Option<String>, AllocError>
    requires { IsKept kept.old }
    ensures { IsKept kept.new }
{
    *kept = Kept::constants(alloc)?;
    Ok(Some(String::from_str(alloc, "nothing is asserted")?))
}

fn answer_line(rt: &HostRuntime, alloc: Global, kept: &mut Kept, line: &str) -> io::Result<()>
    requires { IsKept kept.old }
    ensures { IsKept kept.new }
{
    if line.is_empty() || line.starts_with(';') {
        return println!(rt; "{line}");
    }
    match answer(alloc, kept, &words_of(alloc, line)?)? {
        Some(answer) => println!(rt; "{line}: {answer}"),
        None => println!(rt; "{line}: no task"),
    }
}

fn answer_all(rt: &HostRuntime, alloc: Global, kept: &mut Kept) -> io::Result<()>
    requires { IsKept kept.old }
{
    'lines: for line in rt.lines(alloc) {
        answer_line(rt, alloc, kept, line?.as_str())?;
    }
    Ok(())
}

fn main(rt: HostRuntime) -> io::Result<()> {
    let mut kept = Kept::rows(rt.alloc(), 0)?;
    answer_all(&rt, rt.alloc(), &mut kept)
}
