//! Facts: the formulas that a search may use for a goal, each by the way in which it is drawn from
//! the base, and the log of those that it used.
#![tactic(auto)]

mod base;
mod digest;
mod equality;
mod fact;
mod laws;
mod log;
mod naming;
mod quantified;

pub use base::Base;
pub use fact::{Fact, Facts};
pub use laws::fact_laws;
pub use log::FactLog;
pub use naming::formula_of;
pub use quantified::quantified_at;
