//! The tasks of a table.

use crate::reading::{goal, goal_of_text, printed, printed_terms};
use esc_names::Names;
use esc_sexp::Sexp;
use esc_term::{Formula, Quant, Terms, all_ground, free_within, ground_terms, negate, substitute};
use std::alloc::{AllocError, Global};

/// The line where an expression is no task.
const NO_TASK: &[u8] = b"no task";

/// The line where an expression in the place of a formula is none.
const NO_FORMULA: &[u8] = b"no formula";

/// The line that answers a task.
pub fn line_of(alloc: Global, names: &mut Names, task: &Sexp) -> Result<Vec<u8>, AllocError> {
    let Sexp::List(_, items) = task else {
        return Vec::from_slice(alloc, NO_TASK);
    };
    match items.as_slice() {
        [Sexp::Bare(_, word), part] => simple(alloc, names, word.as_slice(), part),
        [Sexp::Bare(_, word), part, terms] if word.as_slice() == b"replace".as_slice() => {
            replaced(alloc, names, part, terms)
        }
        _ => Vec::from_slice(alloc, NO_TASK),
    }
}

/// A task on a formula alone.
fn simple(
    alloc: Global,
    names: &mut Names,
    word: &[u8],
    part: &Sexp,
) -> Result<Vec<u8>, AllocError> {
    let Some(formula) = goal(alloc, names, part) else {
        return Vec::from_slice(alloc, NO_FORMULA);
    };
    let line = line_of_formula(alloc, names, word, &formula);
    drop(formula);
    line
}

/// What becomes of a formula.
fn line_of_formula(
    alloc: Global,
    names: &mut Names,
    word: &[u8],
    formula: &Formula,
) -> Result<Vec<u8>, AllocError> {
    match word {
        b"print" => printed_and_read(alloc, names, formula),
        b"negate" => negated(alloc, names, formula),
        b"copy" => copied(alloc, names, formula),
        b"ground" => grounded(alloc, names, formula),
        _ => Vec::from_slice(alloc, NO_TASK),
    }
}

/// The text with the prover's names of variables as names that may be read.
fn readable(alloc: Global, text: &[u8]) -> Result<Vec<u8>, AllocError> {
    let mut renamed = Vec::new(alloc);
    'bytes: for (place, byte) in text.iter().enumerate() {
        if *byte != b'@' || !text[place..].starts_with(b"@v.") {
            renamed.push(*byte)?;
        }
    }
    Ok(renamed)
}

fn printed_and_read(
    alloc: Global,
    names: &mut Names,
    formula: &Formula,
) -> Result<Vec<u8>, AllocError> {
    let text = printed(alloc, names, formula)?;
    let readable = readable(alloc, text.as_slice())?;
    if reads_as(alloc, names, readable.as_slice(), formula) {
        return Ok(text);
    }
    Vec::from_slice(alloc, b"reads as another formula")
}

/// Whether a text reads as a formula.
fn reads_as(alloc: Global, names: &mut Names, text: &[u8], formula: &Formula) -> bool {
    let Some(read) = goal_of_text(alloc, names, text) else {
        return false;
    };
    let is_same = read == *formula;
    drop(read);
    is_same
}

fn negated(alloc: Global, names: &Names, formula: &Formula) -> Result<Vec<u8>, AllocError> {
    let negation = negate(alloc, formula)?;
    let text = printed(alloc, names, &negation);
    drop(negation);
    text
}

fn copied(alloc: Global, names: &Names, formula: &Formula) -> Result<Vec<u8>, AllocError> {
    let copy = formula.copy(alloc)?;
    let is_same = copy == *formula;
    drop(copy);
    if is_same {
        return printed(alloc, names, formula);
    }
    Vec::from_slice(alloc, b"differs")
}

fn grounded(alloc: Global, names: &Names, formula: &Formula) -> Result<Vec<u8>, AllocError> {
    printed_terms(alloc, names, &ground_terms(alloc, formula)?)
}

/// The quantified part of a formula.
fn quantified(formula: &Formula) -> Option<&Quant> {
    match formula {
        Formula::Forall(quant) | Formula::Exists(quant) => Some(quant.get()),
        _ => None,
    }
}

/// The members of a distinction.
fn members(formula: &Formula) -> Option<&Terms> {
    match formula {
        Formula::Distinct(terms) => Some(terms),
        _ => None,
    }
}

fn replaced(
    alloc: Global,
    names: &mut Names,
    part: &Sexp,
    terms: &Sexp,
) -> Result<Vec<u8>, AllocError> {
    let Some(formula) = goal(alloc, names, part) else {
        return Vec::from_slice(alloc, NO_FORMULA);
    };
    let line = replaced_in(alloc, names, &formula, terms);
    drop(formula);
    line
}

fn replaced_in(
    alloc: Global,
    names: &mut Names,
    formula: &Formula,
    terms: &Sexp,
) -> Result<Vec<u8>, AllocError> {
    let Some(listed) = goal(alloc, names, terms) else {
        return Vec::from_slice(alloc, NO_FORMULA);
    };
    let line = replaced_by(alloc, names, formula, &listed);
    drop(listed);
    line
}

fn replaced_by(
    alloc: Global,
    names: &Names,
    formula: &Formula,
    listed: &Formula,
) -> Result<Vec<u8>, AllocError> {
    let (Some(quant), Some(terms)) = (quantified(formula), members(listed)) else {
        return Vec::from_slice(alloc, NO_TASK);
    };
    if !all_ground(terms) || !free_within(&quant.body, terms.len()) {
        return Vec::from_slice(alloc, b"too few terms");
    }
    let body = substitute(alloc, &quant.body, terms)?;
    let text = printed(alloc, names, &body);
    drop(body);
    text
}
