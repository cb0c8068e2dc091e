//! A graph of terms and a theory share equalities until neither has one that the other lacks.
#![tactic(auto)]

mod adding;
mod arithmetic;
mod asserting;
mod classes;
mod joins;
mod known;
mod laws;
mod literal;
mod missed;
mod nodes;
mod numbers;
mod record;
mod rounds;
mod rows;
mod sharing;
mod steps;
mod telling;
mod theory;

pub use laws::{admitted_laws, model_laws, staying_laws, unquantified_laws};
pub use literal::{Lit, Lits, NodePairs};
pub use record::{CarriesShare, PartRec, ShareRec};
pub use sharing::Sharing;
pub use theory::Theory;
