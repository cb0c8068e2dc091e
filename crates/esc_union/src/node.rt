use std::marker::Model;

/// The number of a node, in the order of making.
#[derive(Clone, Copy, Default, PartialEq, Eq)]
pub struct Node {
    index: usize,
}

impl Model for Node {
    ghost use Rattle.std.specs.Prelude.{ℕ};

    ghost Value = { ℕ };

    ghost view = { λ n. n.index };

    ghost inverse = { λ n. record { index = n } };
}

impl Node {
    ghost use Rattle.std.specs.Prelude.{◌≡◌};

    pub fn new(index: usize) -> Node
        ensures { result ≡ index }
    {
        Node { index }
    }

    pub fn index(self) -> usize
        ensures { result ≡ self }
    {
        self.index
    }
}
