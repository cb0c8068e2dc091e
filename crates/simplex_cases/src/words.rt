//! Numbers and terms in words.

use esc_term::{Head, Sym, Term, Terms};
use std::alloc::{AllocError, Global};

/// The words of a line.
pub fn words_of(alloc: Global, line: &str) -> Result<Vec<&str>, AllocError> {
    let mut words = Vec::new(alloc);
    'words: for word in line.split_whitespace() {
        words.push(word)?;
    }
    Ok(words)
}

/// The number at a place.
pub fn number_at(words: &[&str], place: usize) -> Option<usize> {
    words.get(place)?.parse::<usize>().ok()
}

/// The terms that the words come to.
pub fn terms_of(alloc: Global, words: &[&str]) -> Result<Vec<Term>, AllocError> {
    let mut terms = Vec::new(alloc);
    'words: for word in words {
        push_term(alloc, word, &mut terms)?;
    }
    Ok(terms)
}

fn push_term(alloc: Global, word: &str, terms: &mut Vec<Term>) -> Result<(), AllocError> {
    let term = term_of(alloc, word, terms)?;
    terms.push(term)?;
    Ok(())
}

/// A number, a name, or what is applied to the last two terms.
fn term_of(alloc: Global, word: &str, terms: &mut Vec<Term>) -> Result<Term, AllocError> {
    match word {
        "+" => applied(Head::Add, terms),
        "-" => applied(Head::Sub, terms),
        "*" => applied(Head::Mul, terms),
        _ => Ok(leaf(alloc, word)),
    }
}

/// A number, or the name of a letter.
fn leaf(alloc: Global, word: &str) -> Term {
    if let Ok(number) = word.parse::<i64>() {
        return Term::Num(number);
    }
    let letter = word.as_bytes().first().copied().unwrap_or(0);
    Term::App(Head::Name(Sym(letter as u64)), Terms::new(alloc))
}

/// What is applied to the last two terms, or to all where there are fewer.
fn applied(head: Head, terms: &mut Vec<Term>) -> Result<Term, AllocError> {
    let args = terms.split_off(terms.len().saturating_sub(2))?;
    Ok(Term::App(head, Terms::from_vec(args)))
}
