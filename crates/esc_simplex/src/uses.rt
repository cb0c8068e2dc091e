//! Unknowns in the order of adding, each found by its number.

ghost use Rattle.std.specs.Prelude.{◌≡◌, ◌↔◌, [], ◌∷◌, ◌++◌, IsTrue, MatchOption, OnOk, OnErr};
ghost use Rattle.std.specs.List.{Contains};

use esc_egraph::Node;
use esc_index::Index;
use esc_tableau::Unknown;
use sqlite_items::Items;
use std::alloc::{AllocError, Global};
use std::marker::Model;

/// Unknowns in the order in which they were added.
#[derive(Drop)]
pub struct Uses {
    list: Items<Unknown>,
    index: Index,
}

impl Model for Uses {
    ghost use Rattle.std.specs.Prelude.{ℕ, List};
    ghost use Rattle.esc_simplex.specs.KeyedInside.{HasKeys, itself};

    ghost Value = { List ℕ };

    ghost view = { λ uses. uses.list };

    ghost invariant = { λ uses. HasKeys itself uses.list uses.index };
}

impl Uses {
    /// No unknowns.
    pub(crate) fn new(alloc: Global) -> Uses
        ensures { result ≡ [] }
    {
        Uses {
            list: Items::new(alloc),
            index: Index::new(alloc),
        }
    }

    /// Whether the unknown was added.
    pub(crate) fn contains(&self, u: Unknown) -> bool
        ensures { IsTrue result ↔ Contains self.now u }
    {
        match self.index.last_before(u.number(), self.index.len()) {
            Some(_) => true,
            None => false,
        }
    }

    /// Adds an unknown. Numbers past 32 bits are answered as want of memory.
    pub(crate) fn push(&mut self, u: Unknown) -> Result<(), AllocError>
        ensures ok { OnOk result (self.new ≡ self.old ++ u ∷ []) }
        ensures err { OnErr result (self.new ≡ self.old) }
    {
        self.index.push(u.number(), Node::new(0))?;
        match self.list.push(u) {
            Ok(()) => Ok(()),
            Err(AllocError) => {
                self.index.pop();
                Err(AllocError)
            }
        }
    }

    /// Takes the newest unknown away.
    pub(crate) fn pop(&mut self) -> Option<Unknown>
        ensures { MatchOption result ((self.old ≡ []) × (self.new ≡ []))
            (λ last. self.old ≡ self.new ++ last ∷ []) }
    {
        let Some(newest) = self.list.pop() else {
            return None;
        };
        self.index.pop();
        Some(newest)
    }
}
