//! Formulas from expressions and texts, and texts from formulas.

ghost use Rattle.std.specs.Prelude.{◌≤◌, length};

use esc_form::{Kind, read_command};
use esc_io::MemSink;
use esc_names::Names;
use esc_print::{put_formula, put_term};
use esc_sexp::{Reader, Sexp};
use esc_tables::ROOM;
use esc_term::{Formula, Term, Terms};
use sqlite_items::Items;
use std::alloc::{AllocError, Global};

/// The most bytes of a line.
pub const LINE: usize = 4096;

/// The goal that an expression is. `None` where it is none, or memory is wanting.
pub fn goal(alloc: Global, names: &mut Names, sexp: &Sexp) -> Option<Formula> {
    let command = read_command(alloc, sexp, names).ok()?;
    match command.kind {
        Kind::Goal(formula) => Some(formula),
        other => {
            drop(other);
            None
        }
    }
}

/// A reader of a whole text.
pub fn reader_of(alloc: Global, text: &[u8]) -> Result<Reader, AllocError>
    requires { length text.now ≤ ROOM }
{
    let mut reader = Reader::new(alloc);
    let fed = reader.feed(text);
    reader.finish();
    match fed {
        Ok(()) => Ok(reader),
        Err(error) => {
            drop(reader);
            Err(error)
        }
    }
}

/// The next expression. `None` where there is none, or memory is wanting.
pub fn next_of(reader: &mut Reader) -> Option<Sexp> {
    match reader.next() {
        Ok(found) => found,
        Err(_) => None,
    }
}

/// The goal that a text of one expression is.
pub fn goal_of_text(alloc: Global, names: &mut Names, text: &[u8]) -> Option<Formula> {
    if text.len() > ROOM {
        return None;
    }
    let mut reader = reader_of(alloc, text).ok()?;
    let found = next_of(&mut reader);
    drop(reader);
    let sexp = found?;
    let formula = goal(alloc, names, &sexp);
    drop(sexp);
    formula
}

/// What is printed of a formula, up to the most bytes of a line.
pub fn printed(alloc: Global, names: &Names, formula: &Formula) -> Result<Vec<u8>, AllocError> {
    let mut sink = MemSink::new(alloc, LINE, Items::new(alloc))?;
    let _ = put_formula(formula, names, &mut sink);
    Vec::from_slice(alloc, sink.bytes())
}

/// What is printed of a term, up to the most bytes of a line.
fn printed_term(alloc: Global, names: &Names, term: &Term) -> Result<Vec<u8>, AllocError> {
    let mut sink = MemSink::new(alloc, LINE, Items::new(alloc))?;
    let _ = put_term(term, names, &mut sink);
    Vec::from_slice(alloc, sink.bytes())
}

/// What is printed of terms, each before a blank.
pub fn printed_terms(alloc: Global, names: &Names, terms: &Terms) -> Result<Vec<u8>, AllocError> {
    let mut text = Vec::new(alloc);
    'terms: for term in terms.as_slice() {
        text.extend_from_slice(printed_term(alloc, names, term)?.as_slice())?;
        text.push(b' ')?;
    }
    Ok(text)
}
