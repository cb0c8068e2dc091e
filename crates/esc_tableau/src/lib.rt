//! Linear equations over fractions in solved form, with restrictions, and the maximising of an
//! unknown within them.
#![tactic(auto)]

mod answers;
mod changing;
mod grid;
mod index;
mod laws;
mod listed;
mod lists;
mod maximising;
mod moving;
mod owner;
mod rule;
mod settling;
mod solving;
mod tableau;
mod unknown;

pub use answers::{Jam, Peak, RowStop, Step};
pub use changing::{Part, Parts};
pub use laws::table_laws;
pub use listed::Rows;
pub use lists::{FracLists, Fracs, Unknowns};
pub use tableau::Tableau;
pub use unknown::Unknown;
