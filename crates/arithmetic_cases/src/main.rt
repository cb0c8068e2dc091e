//! Tableaux whose maximising was worked by hand, and linear forms of terms.
//!
//! Each line of the standard input is a task, and each is printed with what it comes to. Lines
//! without words and lines that begin with `;` are printed as they are. The numbers that follow
//! a task's word are whole, or divided by those behind slashes, as in `-1/3/2`.
//!
//! | Task | What it comes to |
//! |---|---|
//! | `tableau` | a tableau without unknowns, for the tasks that follow |
//! | `column` | the number of a new unknown that owns a column |
//! | `row C F U ..` | the number of a new unknown that owns a row, C and F times U and .. |
//! | `trial C F U ..` | how many unknowns there are after such a row was made and dropped |
//! | `restrict U` | the unknown is to be at least 0 |
//! | `maximise U N` | how its maximising by at most N pivots ends, and its value then |
//! | `value U` | its value |
//! | `rows` | the owners of the columns, and the restricted unknowns |
//! | `refill` | a copy of the rows stands in their place |
//! | `lists U F` | the unknown in a list, and how long that list and one of a list of F are |
//! | `form T` | the constant of the term's linear form, and the coefficients |
//! | `difference T T` | the same of the difference of two forms |
//!
//! Terms are written with what is applied behind its arguments: numbers, names of one letter, `+`,
//! `-`, `*` of two terms, and `negative` of one.
#![tactic(auto)]

mod feasible;
mod forms;
mod rows;
mod words;

use crate::feasible::Feasible;
use crate::words::words_of;
use std::alloc::{AllocError, Global};
use std::io;

/// What a task comes to. The first word is the task's.
fn answer(
    alloc: Global,
    feasible: &mut Feasible,
    words: &[&str],
) -> Result<Option<String>, AllocError> {
    let Some((task, operands)) = words.split_first() else {
        return Ok(None);
    };
    match *task {
        "form" => forms::form(alloc, operands),
        "difference" => forms::difference(alloc, operands),
        _ => rows::answer(alloc, feasible, task, operands),
    }
}

fn answer_line(
    rt: &HostRuntime,
    alloc: Global,
    feasible: &mut Feasible,
    line: &str,
) -> io::Result<()> {
    if line.is_empty() || line.starts_with(';') {
        return println!(rt; "{line}");
    }
    match answer(alloc, feasible, &words_of(alloc, line)?)? {
        Some(answer) => println!(rt; "{line}: {answer}"),
        None => println!(rt; "{line}: no task"),
    }
}

fn answer_all(rt: &HostRuntime, alloc: Global, feasible: &mut Feasible) -> io::Result<()> {
    'lines: for line in rt.lines(alloc) {
        answer_line(rt, alloc, feasible, line?.as_str())?;
    }
    Ok(())
}

fn main(rt: HostRuntime) -> io::Result<()> {
    let mut feasible = Feasible::new(rt.alloc());
    answer_all(&rt, rt.alloc(), &mut feasible)
}
