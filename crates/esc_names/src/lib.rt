//! Reserved words and names, and their numbers.
#![tactic(auto)]

mod bare;
mod key;
mod names;
mod words;

pub use bare::{begins_with_at, digits_of, is_bare_name, is_numeral};
pub use key::{Binder, Join, Key, Labelling, Note, Operator, Order, Relation};
pub use names::Names;
pub use words::{Fixed, Row, Spelling, Word, reserved};
