//! Nodes with their unknowns, each found by its node.

ghost use Rattle.std.specs.Prelude.{◌≡◌, [], ◌∷◌, ◌++◌, MatchOption, OnOk, OnErr};
ghost use Rattle.esc_simplex.specs.View.{bound_to};

use esc_egraph::Node;
use esc_index::Index;
use esc_tableau::Unknown;
use sqlite_items::Items;
use std::alloc::{AllocError, Global};
use std::marker::Model;

/// Nodes with their unknowns, in the order in which they were bound.
#[derive(Drop)]
pub struct Bindings {
    list: Items<(Node, Unknown)>,
    index: Index,
}

impl Model for Bindings {
    ghost use Rattle.std.specs.Prelude.{ℕ, List};
    ghost use Rattle.esc_simplex.specs.KeyedInside.{HasKeys, bound_node};

    ghost Value = { List (ℕ × ℕ) };

    ghost view = { λ bindings. bindings.list };

    ghost invariant = { λ bindings. HasKeys bound_node bindings.list bindings.index };
}

impl Bindings {
    /// No nodes.
    pub(crate) fn new(alloc: Global) -> Bindings
        ensures { result ≡ [] }
    {
        Bindings {
            list: Items::new(alloc),
            index: Index::new(alloc),
        }
    }

    /// The pairs, in the order of binding.
    pub(crate) fn as_slice(&self) -> &[(Node, Unknown)]
        ensures { result.now ≡ self.now }
    {
        self.list.as_slice()
    }

    /// The unknown of the first pair with the node.
    pub(crate) fn unknown_of(&self, a: Node) -> Option<Unknown>
        ensures { result ≡ bound_to self.now a }
    {
        let mut found = None;
        let mut end = self.index.len();
        'pairs: while let Some(place) = self.index.last_before(a.index(), end) {
            found = Some(self.list.as_slice()[place].1);
            end = place;
        }
        found
    }

    /// Adds a pair. Numbers past 32 bits are answered as want of memory.
    pub(crate) fn push(&mut self, pair: (Node, Unknown)) -> Result<(), AllocError>
        ensures ok { OnOk result (self.new ≡ self.old ++ pair ∷ []) }
        ensures err { OnErr result (self.new ≡ self.old) }
    {
        self.index.push(pair.0.index(), Node::new(0))?;
        match self.list.push(pair) {
            Ok(()) => Ok(()),
            Err(AllocError) => {
                self.index.pop();
                Err(AllocError)
            }
        }
    }

    /// Takes the newest pair away.
    pub(crate) fn pop(&mut self) -> Option<(Node, Unknown)>
        ensures { MatchOption result ((self.old ≡ []) × (self.new ≡ []))
            (λ last. self.old ≡ self.new ++ last ∷ []) }
    {
        let Some(newest) = self.list.pop() else {
            return None;
        };
        self.index.pop();
        Some(newest)
    }
}
