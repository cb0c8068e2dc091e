//! Tasks on linear forms of terms.

use crate::words::text_of;
use esc_linear::{Form, FormJam, form_of, minus};
use esc_term::{Head, Sym, Term, Terms};
use std::alloc::{AllocError, Global};

/// The linear form of a term.
pub fn form(alloc: Global, words: &[&str]) -> Result<Option<String>, AllocError> {
    let terms = terms_of(alloc, words)?;
    let [term] = terms.as_slice() else {
        return Ok(None);
    };
    Ok(Some(form_text(alloc, form_of(alloc, term))?))
}

/// The difference of the linear forms of two terms.
pub fn difference(alloc: Global, words: &[&str]) -> Result<Option<String>, AllocError> {
    let terms = terms_of(alloc, words)?;
    let [left, right] = terms.as_slice() else {
        return Ok(None);
    };
    Ok(Some(form_text(alloc, less(alloc, left, right))?))
}

fn less(alloc: Global, left: &Term, right: &Term) -> Result<Form, FormJam> {
    let left = form_of(alloc, left)?.copy(alloc)?;
    minus(alloc, &left, &form_of(alloc, right)?)
}

/// The constant and the coefficients of a form, in order.
fn form_text(alloc: Global, form: Result<Form, FormJam>) -> Result<String, AllocError> {
    match form {
        Ok(form) => numbers(alloc, &form),
        Err(FormJam::Spill) => String::from_str(alloc, "spills"),
        Err(FormJam::Memory) => Err(AllocError),
    }
}

fn numbers(alloc: Global, form: &Form) -> Result<String, AllocError> {
    let mut text = text_of(alloc, form.constant)?;
    'parts: for part in form.parts.as_slice() {
        let factor = text_of(alloc, part.factor)?;
        text.push(' ')?;
        text.push_str(factor.as_str())?;
    }
    Ok(text)
}

/// The terms that the words come to.
fn terms_of(alloc: Global, words: &[&str]) -> Result<Vec<Term>, AllocError> {
    let mut terms = Vec::new(alloc);
    'words: for word in words {
        push_term(alloc, word, &mut terms)?;
    }
    Ok(terms)
}

fn push_term(alloc: Global, word: &str, terms: &mut Vec<Term>) -> Result<(), AllocError> {
    let term = term_of(alloc, word, terms)?;
    terms.push(term)?;
    Ok(())
}

/// A number, a name, or what is applied to the last terms.
fn term_of(alloc: Global, word: &str, terms: &mut Vec<Term>) -> Result<Term, AllocError> {
    match word {
        "+" => applied(Head::Add, 2, terms),
        "-" => applied(Head::Sub, 2, terms),
        "*" => applied(Head::Mul, 2, terms),
        "negative" => applied(Head::Sub, 1, terms),
        _ => Ok(leaf(alloc, word)),
    }
}

/// A number, or the name of a letter.
fn leaf(alloc: Global, word: &str) -> Term {
    if let Ok(number) = word.parse::<i64>() {
        return Term::Num(number);
    }
    let letter = word.as_bytes().first().copied().unwrap_or(0);
    Term::App(Head::Name(Sym(letter as u64)), Terms::new(alloc))
}

/// What is applied to the last terms, so many, or to all where there are fewer.
fn applied(head: Head, count: usize, terms: &mut Vec<Term>) -> Result<Term, AllocError> {
    let args = terms.split_off(terms.len().saturating_sub(count))?;
    Ok(Term::App(head, Terms::from_vec(args)))
}
