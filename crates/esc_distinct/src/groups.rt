ghost use Rattle.std.specs.Prelude.{◌≡◌, [], ◌∷◌, ◌++◌, ◌<◌, length, All, OnOk, OnErr, IsTrue, ◌↔◌};
ghost use Rattle.std.specs.Prelude.{slice_index_or};
ghost use Rattle.esc_trail.specs.Undo.{Notes};
ghost use Rattle.esc_distinct.specs.GroupsUndo.{groups_undo};
ghost use Rattle.esc_distinct.specs.Groups.{AreApart, AreBroken};
ghost use Rattle.esc_egraph.specs.Graph.{number_of};

use crate::group::Group;
use crate::record::{CarriesGroups, GroupRec};
use crate::search::{holds_apart, holds_twice};
use esc_egraph::{EGraph, Node};
use esc_trail::{Trail, Undoable};
use std::alloc::{AllocError, Global};
use std::marker::Model;

/// The groups, in the order in which they were added.
#[derive(Drop)]
pub struct Groups {
    alloc: Global,
    groups: Vec<Group>,
}

impl Model for Groups {
    ghost use Rattle.std.specs.Prelude.{ℕ, List};

    ghost Value = { List (List ℕ) };

    ghost view = { λ g. g.groups.items };
}

impl Groups {
    /// No groups.
    pub fn new(alloc: Global) -> Groups
        ensures { result ≡ [] }
    {
        Groups {
            alloc,
            groups: Vec::new(alloc),
        }
    }

    /// Adds a group.
    pub fn add_group<R: CarriesGroups>(
        &mut self,
        nodes: &[Node],
        trail: &mut Trail<R>,
    ) -> Result<(), AllocError>
        ensures ok { OnOk result (self.new ≡ self.old ++ nodes.now ∷ []) }
        ensures err { OnErr result (self.new ≡ self.old) }
        ensures undo { Notes groups_undo R.carried_group trail.old.records trail.new.records
            self.old self.new }
    {
        let group = Group::of(self.alloc, nodes)?;
        self.groups.reserve(1)?;
        trail.reserve(1)?;
        trail.note(R::carry_group(GroupRec::Added));
        match self.groups.push(group) {
            Ok(()) => Ok(()),
            Err(_) => unreachable!(),
        }
    }

    /// Whether the classes of two nodes hold members of one group at two different places.
    pub fn apart(&self, graph: &EGraph, a: Node, b: Node) -> bool
        requires a_is_there { a < length graph.now.nodes }
        requires b_is_there { b < length graph.now.nodes }
        requires members { All (All (λ n. n < length graph.now.nodes)) self.now }
        ensures { IsTrue result ↔ AreApart (number_of graph.now) self.now a b }
    {
        'groups: for place in 0..self.count() {
            if holds_apart(graph, self.group(place), a, b) {
                return true;
            }
        }
        false
    }

    /// How many groups there are.
    fn count(&self) -> usize
        ensures { result ≡ length self.now }
    {
        self.groups.len()
    }

    /// The group at a place.
    fn group(&self, place: usize) -> &Group
        requires { place < length self.now }
        ensures { result.now ≡ slice_index_or self.now place [] }
    {
        &self.groups[place]
    }

    /// Whether one class holds members of one group at two different places.
    pub fn broken(&self, graph: &EGraph) -> bool
        requires members { All (All (λ n. n < length graph.now.nodes)) self.now }
        ensures { IsTrue result ↔ AreBroken (number_of graph.now) self.now }
    {
        'groups: for place in 0..self.count() {
            if holds_twice(graph, self.group(place)) {
                return true;
            }
        }
        false
    }
}

impl Undoable for Groups {
    type Rec = GroupRec;

    ghost use Rattle.esc_distinct.specs.GroupsUndo.{groups_undo, groups_back, CanDrop};
    ghost use Rattle.esc_trail.proofs.Lawful.{equal_is_lawful};

    ghost undo = { groups_undo };

    ghost lawful = { equal_is_lawful groups_back CanDrop };

    fn back(&mut self, rec: GroupRec) {
        match rec {
            GroupRec::Added => {
                let _ = self.groups.pop();
            }
        }
    }
}
