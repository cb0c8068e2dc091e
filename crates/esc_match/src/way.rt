//! Ways in which terms match nodes.

ghost use Rattle.std.specs.Prelude.{◌≡◌, [], IfOk};
ghost use Rattle.esc_match.specs.WaysInside.{class_bound, visited, visited_with};

use esc_egraph::Node;
use sqlite_items::Items;
use std::alloc::{AllocError, Global};

/// A variable with the number of its class.
#[derive(Clone, Copy)]
pub(crate) struct Binding {
    pub(crate) variable: u64,
    pub(crate) class: Node,
}

/// The classes of the variables that were met, and the matched nodes from the front.
#[derive(Drop)]
pub(crate) struct Way {
    pub(crate) bound: Items<Binding>,
    pub(crate) matched: Items<Node>,
}

impl Way {
    /// The way that has not begun.
    pub(crate) fn new(alloc: Global) -> Way
        ensures { result ≡ record { bound = []; matched = [] } }
    {
        Way {
            bound: Items::new(alloc),
            matched: Items::new(alloc),
        }
    }

    /// The way as it goes on to a node.
    pub(crate) fn visited(&self, alloc: Global, node: Node) -> Result<Way, AllocError>
        ensures { IfOk result (λ way. way ≡ visited self.now node) }
    {
        let mut matched = Items::from_slice(alloc, self.matched.as_slice())?;
        matched.push(node)?;
        let bound = Items::from_slice(alloc, self.bound.as_slice())?;
        Ok(Way { bound, matched })
    }

    /// The way as it goes on to a node that stands for a new variable.
    pub(crate) fn visited_with(
        &self,
        alloc: Global,
        binding: Binding,
        node: Node,
    ) -> Result<Way, AllocError>
        ensures { IfOk result (λ way. way ≡ visited_with self.now binding node) }
    {
        let mut way = self.visited(alloc, node)?;
        way.bound.push(binding)?;
        Ok(way)
    }
}

/// The number of a variable's class, if it was met.
#[tactic(auto, using(crate::proofs::Walks::bound_walk))]
pub(crate) fn class_bound(bound: &[Binding], variable: u64) -> Option<Node>
    ensures { result ≡ class_bound bound.now variable }
{
    'bound: for binding in bound {
        if binding.variable == variable {
            return Some(binding.class);
        }
    }
    None
}
