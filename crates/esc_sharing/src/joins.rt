//! The classes of two nodes are joined.

ghost use Rattle.std.specs.Prelude.{◌≡◌, ℕ, ◌<◌, ◌⊎◌, [], ◌∷◌, length, map, IfErr, Ok, OnOk};
ghost use Rattle.std.specs.List.{All};
ghost use Rattle.esc_trail.specs.Undo.{Notes};
ghost use Rattle.esc_egraph.specs.Congruence.{EqualWith, IsBroken, IsLeast, IsMet};
ghost use Rattle.esc_egraph.specs.Graph.{Adds, IsGraph, number_of};
ghost use Rattle.esc_egraph.specs.GraphUndo.{graph_undo};
ghost use Rattle.esc_distinct.specs.Groups.{AreBroken};
ghost use Rattle.esc_sharing.specs.Admitted.{AreEqualBy, AreTwoNumbers};
ghost use Rattle.esc_sharing.specs.KnownInside.{AreKnownBy};
ghost use Rattle.esc_sharing.specs.Nodes.{node_term};
ghost use Rattle.esc_sharing.specs.SettlingInside.{IsUnsettled, Keeps};
ghost use Rattle.esc_sharing.specs.Calls.{StepEnds};
ghost use Rattle.esc_sharing.specs.Shared.{seen};
ghost use Rattle.esc_sharing.specs.SharingUndo.{part_carried};

use crate::known::know;
use crate::record::CarriesShare;
use crate::sharing::Sharing;
use crate::theory::Theory;
use esc_distinct::CarriesGroups;
use esc_egraph::{CarriesNodes, Node, State};
use esc_simplex::Stop;
use esc_trail::{Carries, Trail};
use std::alloc::AllocError;

impl<T: Theory> Sharing<T> {
    /// Joins the classes of two arithmetic nodes that the theory finds equal.
    pub(crate) fn join<R: CarriesNodes + CarriesGroups + CarriesShare + Carries<T::Rec>>(
        &mut self,
        a: Node,
        b: Node,
        known: &mut [(Node, usize)],
        trail: &mut Trail<R>,
    ) -> Result<State, Stop>
        requires unsettled { IsUnsettled (seen T.sound T.admits T.numbers self.old)
            (AreKnownBy known.old) }
        requires two { AreTwoNumbers self.old.graph (T.numbers self.old.theory) a b }
        requires equal { AreEqualBy (T.admits self.old.theory) (node_term self.old.graph a)
            (node_term self.old.graph b) }
        ensures ends { StepEnds (seen T.sound T.admits T.numbers self.new)
            (IsUnsettled (seen T.sound T.admits T.numbers self.new) (AreKnownBy known.new))
            result }
        ensures fewer { result ≡ Ok State.Open →
            length self.old.graph.merges < length self.new.graph.merges }
        ensures nodes { map (λ entry. entry.0) known.new ≡ map (λ entry. entry.0) known.old }
        ensures keeps { Keeps T.undo
            (part_carried R.carried_node R.carried_group R.carried_share R.carried) T.sound
            T.numbers T.made [] [] trail.old.records trail.new.records self.old self.new }
        ensures stop { IfErr result (λ stop. stop ≡ Stop.Memory) }
    {
        match self.equate(a, b, trail) {
            Ok(state) => {
                know(known, a, b);
                Ok(state)
            }
            Err(_) => Err(Stop::Memory),
        }
    }

    /// Makes two nodes equal in the graph: Closed where that joins what is kept apart.
    pub(crate) fn equate<R: CarriesNodes>(
        &mut self,
        a: Node,
        b: Node,
        trail: &mut Trail<R>,
    ) -> Result<State, AllocError>
        requires a_is_there { a < length self.old.graph.nodes }
        requires b_is_there { b < length self.old.graph.nodes }
        requires met { IsMet self.old.graph }
        requires members { All (All (λ n. n < length self.old.graph.nodes)) self.old.groups }
        ensures rest { self.new ≡ record self.old { graph = self.new.graph } }
        ensures others { self.new.graph
            ≡ record self.old.graph { merges = self.new.graph.merges } }
        ensures more { Adds self.old.graph.merges self.new.graph.merges }
        ensures least { OnOk result (IsLeast self.old.graph.nodes
            (EqualWith (number_of self.old.graph) a b) (number_of self.new.graph)) }
        ensures open { result ≡ Ok State.Open → IsMet self.new.graph
            × (AreBroken (number_of self.new.graph) self.old.groups → ⊥) }
        ensures closed { result ≡ Ok State.Closed → IsBroken self.new.graph
            ⊎ AreBroken (number_of self.new.graph) self.old.groups }
        ensures graph { OnOk result (IsGraph self.new.graph) }
        ensures undo { Notes graph_undo R.carried_node trail.old.records trail.new.records
            self.old.graph self.new.graph }
    {
        let state = self.graph.equate(a, b, trail)?;
        Ok(self.kept_apart(state))
    }

    /// Closed where a class holds two places of a group, and else as it is.
    pub(crate) fn kept_apart(&self, state: State) -> State
        requires members { All (All (λ n. n < length self.now.graph.nodes)) self.now.groups }
        ensures open { result ≡ State.Open → (state ≡ State.Open)
            × (AreBroken (number_of self.now.graph) self.now.groups → ⊥) }
        ensures closed { result ≡ State.Closed → (state ≡ State.Closed)
            ⊎ AreBroken (number_of self.now.graph) self.now.groups }
        ensures graph { IsGraph self.now.graph }
    {
        let _ = self.graph.count();
        if self.groups.broken(&self.graph) {
            return State::Closed;
        }
        state
    }
}
