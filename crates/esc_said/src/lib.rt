//! What a sharing says of the terms of its nodes: that they are equal, that they differ, and which
//! of two is less.
#![tactic(auto)]

mod laws;
mod said;
mod saying;

pub use laws::saying_laws;
pub use said::Said;
pub use saying::Saying;
