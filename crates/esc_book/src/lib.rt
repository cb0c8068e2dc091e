//! The formulas of a log, and a flat table of each that is live: what is said of an occurrence is
//! read off the table and the classes of nodes.
#![tactic(auto)]

mod atom;
mod atoms;
mod book;
mod entry;
mod expanded;
mod expanding;
mod group;
mod judge;
mod laws;
mod live;
mod page;
mod record;
mod saying_of;
mod writing;

pub use atom::Atom;
pub use book::Book;
pub use entry::{Entry, Kind, Page};
pub use expanded::Expanded;
pub use group::{Group, Nodes};
pub use judge::BookJudge;
pub use laws::book_laws;
pub use record::BookRec;
