//! How names, terms and formulas are printed.
#![tactic(auto)]

mod formulas;
mod fractions;
mod names;
mod notes;
mod numbers;
mod printer;
mod terms;

pub use formulas::{put_formula, put_literal};
pub use fractions::put_frac;
pub use names::put_name;
pub use numbers::put_number;
pub use printer::Printer;
pub use terms::put_term;
