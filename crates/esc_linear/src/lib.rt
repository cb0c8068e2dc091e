//! Linear forms of terms: a constant and a multiple of each term that arithmetic does not look
//! into.
#![tactic(auto)]

mod evaluation;
mod form;
mod laws;
mod product;
mod sum;

pub use evaluation::form_of;
pub use form::{Form, FormJam, Part, Parts};
pub use laws::{form_laws, minus_laws};
pub use sum::minus;
