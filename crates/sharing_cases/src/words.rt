//! Numbers and terms in words.

use esc_term::{Head, Sym, Term, Terms};
use std::alloc::{AllocError, Global};

/// The words of a line.
pub fn words_of(alloc: Global, line: &str) -> Result<Vec<&str>, AllocError> {
    let mut words = Vec::new(alloc);
    'words: for word in line.split_whitespace() {
        words.push(word)?;
    }
    Ok(words)
}

/// The terms that the words come to.
pub fn terms_of(alloc: Global, words: &[&str]) -> Result<Vec<Term>, AllocError> {
    let mut terms = Vec::new(alloc);
    'words: for word in words {
        push_term(word, &mut terms)?;
    }
    Ok(terms)
}

fn push_term(word: &str, terms: &mut Vec<Term>) -> Result<(), AllocError> {
    let term = term_of(word, terms)?;
    terms.push(term)?;
    Ok(())
}

/// A number, or what is applied to the last terms.
fn term_of(word: &str, terms: &mut Vec<Term>) -> Result<Term, AllocError> {
    if let Ok(number) = word.parse::<i64>() {
        return Ok(Term::Num(number));
    }
    match word {
        "+" => applied(Head::Add, 2, terms),
        "-" => applied(Head::Sub, 2, terms),
        "*" => applied(Head::Mul, 2, terms),
        _ => applied(named(word), arity_of(word), terms),
    }
}

/// The name of a letter.
fn named(word: &str) -> Head {
    let letter = word.as_bytes().first().copied().unwrap_or(0);
    Head::Name(Sym(letter as u64))
}

/// The number behind a letter, or 0.
fn arity_of(word: &str) -> usize {
    let digit = word.as_bytes().get(1).copied().unwrap_or(b'0');
    digit.saturating_sub(b'0') as usize
}

/// What is applied to the last terms, so many, or to all where there are fewer.
fn applied(head: Head, arity: usize, terms: &mut Vec<Term>) -> Result<Term, AllocError> {
    let args = terms.split_off(terms.len().saturating_sub(arity))?;
    Ok(Term::App(head, Terms::from_vec(args)))
}
