ghost use Rattle.std.specs.Prelude.{◌≡◌, ℕ, ◌<◌, [], ◌∷◌, ◌++◌, length, OnOk, OnErr, IfOk, ◌↔◌};
ghost use Rattle.esc_trail.specs.Undo.{Notes};
ghost use Rattle.esc_union.specs.Merges.{SameClass};
ghost use Rattle.esc_egraph.specs.GraphUndo.{graph_undo};
ghost use Rattle.esc_egraph.specs.Graph.{number_of};
ghost use Rattle.esc_egraph.specs.Congruence.{IsMet};

use crate::graph::EGraph;
use crate::record::{CarriesNodes, EgraphRec};
use crate::state::State;
use esc_trail::Trail;
use esc_union::Node;
use std::alloc::AllocError;

impl EGraph {
    /// Forbids two nodes to stand in one class: Closed where they stand in one.
    pub fn forbid<R: CarriesNodes>(
        &mut self,
        a: Node,
        b: Node,
        trail: &mut Trail<R>,
    ) -> Result<State, AllocError>
        requires a_is_there { a < length self.old.nodes }
        requires b_is_there { b < length self.old.nodes }
        requires met { IsMet self.old }
        ensures ok { OnOk result (self.new ≡ record self.old {
          forbidden = self.old.forbidden
              ++ (a, b) ∷ [];
        }) }
        ensures closed { IfOk result (λ s. (s ≡ State.Closed)
            ↔ SameClass (number_of self.old) a b) }
        ensures met { IfOk result (λ s. s ≡ State.Open → IsMet self.new) }
        ensures err { OnErr result (self.new ≡ self.old) }
        ensures undo { Notes graph_undo R.carried_node trail.old.records trail.new.records self.old
            self.new }
    {
        self.add_forbidden(a, b, trail)?;
        if self.same(a, b) {
            return Ok(State::Closed);
        }
        Ok(State::Open)
    }

    /// Adds a forbidden pair.
    fn add_forbidden<R: CarriesNodes>(
        &mut self,
        a: Node,
        b: Node,
        trail: &mut Trail<R>,
    ) -> Result<(), AllocError>
        requires a_is_there { a < length self.old.nodes }
        requires b_is_there { b < length self.old.nodes }
        ensures ok { OnOk result (self.new ≡ record self.old {
          forbidden = self.old.forbidden
              ++ (a, b) ∷ [];
        }) }
        ensures err { OnErr result (self.new ≡ self.old) }
        ensures undo { Notes graph_undo R.carried_node trail.old.records trail.new.records self.old
            self.new }
    {
        self.parts.forbidden.reserve(1)?;
        trail.reserve(1)?;
        self.parts
            .sides
            .push(&self.parts.classes, self.parts.forbidden.as_slice(), a, b)?;
        trail.note(R::carry_node(EgraphRec::Forbidden));
        match self.parts.forbidden.push((a, b)) {
            Ok(()) => Ok(()),
            Err(_) => unreachable!(),
        }
    }
}
