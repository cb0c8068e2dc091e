//! ReadsBy terms, names and lists of variables from expressions.
#![tactic(auto)]

mod fault;
mod laws;
mod name;
mod numeral;
mod reader;
mod scope;
mod term;
mod token;

pub use fault::{FormFault, FormKind, FormStop, refusal};
pub use laws::term_laws;
pub use reader::TermReader;
pub use token::{Token, args_of, place_of, text_of};
