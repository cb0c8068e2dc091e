//! Linear restrictions on terms over one tableau, which is kept where restrictions and unknowns are
//! taken back.
#![tactic(auto)]

mod adding;
mod bindings;
mod entries;
mod keys;
mod laws;
mod made;
mod maximising;
mod record;
mod simplex;
mod stop;
mod uses;

pub use laws::{back_laws, key_laws, value_laws};
pub use made::Made;
pub use record::SimplexRec;
pub use simplex::Simplex;
pub use stop::{Jammed, Parted, Stop};
