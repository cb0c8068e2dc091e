use crate::occurrence::Occurrence;

/// An item of a clause, and whether it has gone from it.
#[derive(Clone, Copy)]
pub struct Member {
    pub item: Occurrence,
    pub gone: bool,
}
