ghost use Rattle.std.specs.Prelude.{◌≡◌, ◌<◌, length, IsTrue, ◌↔◌, IfOk, IfSome, IfNone};
ghost use Rattle.std.specs.Prelude.{MatchOption, nat_eq, slice_index};
ghost use Rattle.std.specs.HashMap.{get};
ghost use Rattle.std.specs.List.{Contains};
ghost use Rattle.esc_distinct.specs.PassesInside.{StandsElsewhere};

use esc_egraph::Node;
use std::alloc::{AllocError, Global};
use std::collections::HashMap;
use std::marker::Model;

/// The first and the last place of a node.
#[derive(Clone, Copy)]
pub(crate) struct Places {
    pub(crate) first: usize,
    pub(crate) last: usize,
}

/// The nodes of one group, and the places of each.
#[derive(Drop)]
pub(crate) struct Group {
    nodes: Vec<Node>,
    places: HashMap<usize, Places>,
}

impl Model for Group {
    ghost use Rattle.std.specs.Prelude.{ℕ, List};

    ghost Value = { List ℕ };

    ghost use Rattle.esc_distinct.specs.GroupsInside.{IsSound};

    ghost view = { λ g. g.nodes.items };

    ghost invariant = { IsSound };
}

impl Group {
    pub(crate) fn of(alloc: Global, nodes: &[Node]) -> Result<Group, AllocError>
        ensures { IfOk result (λ g. g ≡ nodes.now) }
    {
        let mut places = HashMap::new(alloc);
        'nodes: for (place, node) in nodes.iter().enumerate() {
            let first = first_place(&places, *node, place);
            places.insert(node.index(), Places { first, last: place })?;
        }
        let nodes = nodes.to_vec(alloc)?;
        Ok(Group { nodes, places })
    }

    pub(crate) fn nodes(&self) -> &[Node]
        ensures { result.now ≡ self.now }
    {
        self.nodes.as_slice()
    }

    /// A place of a node.
    pub(crate) fn place(&self, node: Node) -> Option<usize>
        ensures there { IfSome result (λ p. p < length self.now) }
        ensures is { IfSome result (λ p. slice_index self.now p ≡ node) }
        ensures none { IfNone result (Contains self.now node → ⊥) }
    {
        match self.places.get(&node.index()) {
            Some(places) => Some(places.first),
            None => None,
        }
    }

    /// Whether a node stands at another place than this one.
    pub(crate) fn stands_elsewhere(&self, node: Node, place: usize) -> bool
        ensures { IsTrue result ↔ StandsElsewhere self.now place node }
    {
        match self.places.get(&node.index()) {
            Some(places) => places.first != place || places.last != place,
            None => false,
        }
    }
}

/// The first place of a node that stands at a new place, too.
fn first_place(places: &HashMap<usize, Places>, node: Node, place: usize) -> usize
    ensures { MatchOption (get nat_eq places.now node) (result ≡ place) (λ p. result ≡ p.first) }
{
    match places.get(&node.index()) {
        Some(places) => places.first,
        None => place,
    }
}
