//! Formulas from a table: what is printed of each, that it reads as the same formula again, and
//! what becomes of it.
//!
//! Each expression of the standard input is a task, and each task prints one line.
//!
//! A value of many forms goes out of scope by a call of `drop`, at one place: at each other end of
//! its scope its forms would be taken apart anew in the proof.
//!
//! | Task | Line |
//! |---|---|
//! | `(print F)` | what is printed of the formula, if that reads as the formula again |
//! | `(negate F)` | what is printed of its negation |
//! | `(copy F)` | what is printed of a copy, if that is equal to the formula |
//! | `(replace F (DISTINCT t ..))` | what is printed of the body of a quantified formula with these
//! terms for its variables |
//! | `(ground F)` | its ground terms |
#![tactic(auto)]

ghost use Rattle.std.specs.Prelude.{◌≤◌, length};

mod reading;
mod tasks;

use crate::reading::{next_of, reader_of};
use crate::tasks::line_of;
use esc_io::{StdSink, StdSource, put_all};
use esc_names::Names;
use esc_sexp::{Reader, Sexp};
use esc_tables::{ROOM, read_table};
use std::alloc::{AllocError, Global};

/// The lines that answer the tasks of a table.
fn answer_all(alloc: Global, table: &[u8]) -> Result<Vec<u8>, AllocError>
    requires { length table.now ≤ ROOM }
{
    let mut lines = Vec::new(alloc);
    let mut names = Names::new(alloc)?;
    answer_each(alloc, table, &mut names, &mut lines)?;
    Ok(lines)
}

fn answer_each(
    alloc: Global,
    table: &[u8],
    names: &mut Names,
    lines: &mut Vec<u8>,
) -> Result<(), AllocError>
    requires { length table.now ≤ ROOM }
{
    let mut reader = reader_of(alloc, table)?;
    let answered = answer_rest(alloc, &mut reader, names, lines);
    drop(reader);
    answered
}

/// Adds the lines of the tasks that the reader has yet to give.
fn answer_rest(
    alloc: Global,
    reader: &mut Reader,
    names: &mut Names,
    lines: &mut Vec<u8>,
) -> Result<(), AllocError> {
    'tasks: for _ in 0..ROOM {
        let Some(task) = next_of(reader) else {
            break 'tasks;
        };
        let added = add_line(alloc, &task, names, lines);
        drop(task);
        added?;
    }
    Ok(())
}

fn add_line(
    alloc: Global,
    task: &Sexp,
    names: &mut Names,
    lines: &mut Vec<u8>,
) -> Result<(), AllocError> {
    let line = line_of(alloc, names, task)?;
    lines.extend_from_slice(line.as_slice())?;
    lines.push(b'\n')?;
    Ok(())
}

fn main(rt: HostRuntime) {
    let mut source = StdSource::new(rt.stdin());
    let mut sink = StdSink::new(rt.stdout());
    let Ok(table) = read_table(rt.alloc(), &mut source) else {
        return;
    };
    let Ok(lines) = answer_all(rt.alloc(), table.as_slice()) else {
        return;
    };
    let _ = put_all(&mut sink, lines.as_slice());
}
