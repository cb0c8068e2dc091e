ghost use Rattle.std.specs.Prelude.{◌≡◌};
ghost use Rattle.esc_nodes.specs.TopDigest.{top_digest};

use esc_term::{Head, digest_head, mix};

/// What stands at the top of a ground term.
#[derive(Clone, Copy, PartialEq, Eq)]
pub enum Top {
    Num(i64),
    App(Head),
}

impl Top {
    /// The digest of a term with this top, before those of the arguments are mixed into it.
    pub fn digest(self) -> u64
        ensures { result ≡ top_digest self }
    {
        match self {
            Top::Num(n) => mix(0, n.cast_unsigned()),
            Top::App(head) => digest_head(head),
        }
    }
}
