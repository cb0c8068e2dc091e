//! Tasks on a tableau.

use crate::feasible::Feasible;
use crate::words::{fraction_at, number_at, text_of, unknown_at};
use esc_frac::Frac;
use esc_tableau::{FracLists, Fracs, Jam, Part, Parts, Peak, Step, Unknown, Unknowns};
use std::alloc::{AllocError, Global};

/// What a task on the tableau comes to.
pub fn answer(
    alloc: Global,
    feasible: &mut Feasible,
    task: &str,
    operands: &[&str],
) -> Result<Option<String>, AllocError> {
    match task {
        "tableau" => begun(alloc, feasible),
        "column" => number(alloc, feasible.column()?.number()),
        "row" | "trial" => row(alloc, feasible, task, operands),
        "restrict" => restricted(alloc, feasible, operands),
        "maximise" => maximised(alloc, feasible, operands),
        "value" => value(alloc, feasible, operands),
        "rows" => owners(alloc, feasible),
        "refill" => refilled(alloc, feasible),
        "lists" => lists(alloc, operands),
        _ => Ok(None),
    }
}

fn number(alloc: Global, number: usize) -> Result<Option<String>, AllocError> {
    Ok(Some(format!(in alloc; "{number}")?))
}

fn begun(alloc: Global, feasible: &mut Feasible) -> Result<Option<String>, AllocError> {
    *feasible = Feasible::new(alloc);
    number(alloc, feasible.count())
}

/// The parts of a sum that pairs of a factor and an unknown say.
fn parts_of(alloc: Global, pairs: &[&str]) -> Result<Option<Parts>, AllocError> {
    let mut parts = Parts::new(alloc);
    'pairs: for pair in pairs.chunks(2) {
        let (Some(factor), Some(unknown)) = (fraction_at(pair, 0), unknown_at(pair, 1)) else {
            return Ok(None);
        };
        parts.push(Part { unknown, factor })?;
    }
    Ok(Some(parts))
}

fn row(
    alloc: Global,
    feasible: &mut Feasible,
    task: &str,
    operands: &[&str],
) -> Result<Option<String>, AllocError> {
    let Some((_, pairs)) = operands.split_first() else {
        return Ok(None);
    };
    let Some(constant) = fraction_at(operands, 0) else {
        return Ok(None);
    };
    let Some(parts) = parts_of(alloc, pairs)? else {
        return Ok(None);
    };
    match made(feasible, task, &parts, constant) {
        Some(made) => number(alloc, made),
        None => Ok(None),
    }
}

fn made(feasible: &mut Feasible, task: &str, parts: &Parts, constant: Frac) -> Option<usize> {
    if task == "row" {
        return Some(feasible.row(parts, constant)?.number());
    }
    if !feasible.trial(parts, constant) {
        return None;
    }
    Some(feasible.count())
}

fn restricted(
    alloc: Global,
    feasible: &mut Feasible,
    operands: &[&str],
) -> Result<Option<String>, AllocError> {
    let Some(unknown) = unknown_at(operands, 0) else {
        return Ok(None);
    };
    if !feasible.restrict(unknown) {
        return Ok(None);
    }
    Ok(Some(String::from_str(alloc, "at least 0")?))
}

fn value(
    alloc: Global,
    feasible: &Feasible,
    operands: &[&str],
) -> Result<Option<String>, AllocError> {
    let Some(unknown) = unknown_at(operands, 0) else {
        return Ok(None);
    };
    Ok(Some(text_of(alloc, feasible.value(unknown))?))
}

fn maximised(
    alloc: Global,
    feasible: &mut Feasible,
    operands: &[&str],
) -> Result<Option<String>, AllocError> {
    let (Some(unknown), Some(limit)) = (unknown_at(operands, 0), number_at(operands, 1)) else {
        return Ok(None);
    };
    let Some(end) = feasible.maximise(unknown, limit as u64) else {
        return Ok(None);
    };
    let end = end_text(alloc, end)?;
    let value = text_of(alloc, feasible.value(unknown))?;
    Ok(Some(format!(in alloc; "{end}, at {value}")?))
}

fn end_text(alloc: Global, end: Result<Peak, Jam>) -> Result<String, AllocError> {
    match end {
        Ok(Peak::NotPositive) => String::from_str(alloc, "not positive"),
        Ok(Peak::Positive { ray: None }) => String::from_str(alloc, "positive"),
        Ok(Peak::Positive { ray: Some(ray) }) => {
            let column = ray.number();
            format!(in alloc; "grows along {column}")
        }
        Err(Jam::Pivots) => String::from_str(alloc, "one pivot more"),
        Err(Jam::Spill(step)) => step_text(alloc, step),
    }
}

fn step_text(alloc: Global, step: Step) -> Result<String, AllocError> {
    match step {
        Step::Row => String::from_str(alloc, "the row spills"),
        Step::Ratio { row, column } => {
            let (row, column) = (row.number(), column.number());
            format!(in alloc; "the ratio of {row} and {column} spills")
        }
        Step::Pivot { row, column } => {
            let (row, column) = (row.number(), column.number());
            format!(in alloc; "the pivot of {row} and {column} spills")
        }
    }
}

fn owners(alloc: Global, feasible: &Feasible) -> Result<Option<String>, AllocError> {
    let rows = feasible.rows()?;
    let text = owners_text(alloc, &rows.columns, &rows.restricted);
    drop(rows);
    Ok(Some(text?))
}

fn owners_text(
    alloc: Global,
    columns: &Unknowns,
    restricted: &Unknowns,
) -> Result<String, AllocError> {
    let columns = numbers(alloc, columns)?;
    let restricted = numbers(alloc, restricted)?;
    format!(in alloc; "columns{columns}, restricted{restricted}")
}

/// The numbers of unknowns, each behind a blank.
fn numbers(alloc: Global, unknowns: &Unknowns) -> Result<String, AllocError> {
    let mut text = String::new(alloc);
    'unknowns: for place in 0..unknowns.len() {
        let Some(unknown) = unknowns.get(place) else {
            break 'unknowns;
        };
        let number = format!(in alloc; " {}", unknown.number())?;
        text.push_str(number.as_str())?;
    }
    Ok(text)
}

fn refilled(alloc: Global, feasible: &mut Feasible) -> Result<Option<String>, AllocError> {
    feasible.refill(alloc)?;
    number(alloc, feasible.count())
}

fn lists(alloc: Global, operands: &[&str]) -> Result<Option<String>, AllocError> {
    let (Some(unknown), Some(fraction)) = (unknown_at(operands, 0), fraction_at(operands, 1)) else {
        return Ok(None);
    };
    let unknowns = alone(alloc, unknown)?;
    let held = numbers(alloc, &unknowns)?;
    let lists = lists_of(alloc, fraction)?;
    Ok(Some(format!(in alloc;
        "the list{held} of {}, one of {}",
        unknowns.len(),
        lists.len()
    )?))
}

fn alone(alloc: Global, unknown: Unknown) -> Result<Unknowns, AllocError> {
    let mut unknowns = Unknowns::new(alloc);
    unknowns.push(unknown)?;
    Ok(unknowns)
}

fn lists_of(alloc: Global, fraction: Frac) -> Result<FracLists, AllocError> {
    let mut fractions = Fracs::new(alloc);
    fractions.push(fraction)?;
    let mut lists = FracLists::new(alloc);
    lists.push(fractions)?;
    Ok(lists)
}
