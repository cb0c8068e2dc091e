ghost use Rattle.std.specs.Prelude.{◌≡◌, ℕ, ◌+◌, ◌-◌, ◌<◌, ◌≤◌, [], ◌∷◌, ◌++◌, length, OnOk, OnErr, IfOk, IsTrue, ◌↔◌, All, ◌⊎◌};
ghost use Rattle.esc_trail.specs.Undo.{Notes};
ghost use Rattle.esc_nodes.specs.Nodes.{shape, shape_at};
ghost use Rattle.esc_union.specs.Merges.{SameClass};
ghost use Rattle.esc_egraph.specs.GraphUndo.{graph_undo};
ghost use Rattle.esc_egraph.specs.Graph.{Adds, IsGraph, number_of};
ghost use Rattle.esc_egraph.specs.Congruence.{EqualWith, IsBroken, IsKnown, IsLeast, IsMade, IsMet};

mod forbid;
mod read;

use crate::parts::Parts;
use crate::record::{CarriesNodes, EgraphRec};
use crate::state::State;
use esc_nodes::Top;
use esc_trail::{Trail, Undoable};
use esc_union::Node;
use std::alloc::{AllocError, Global};
use std::marker::Model;

/// The nodes in the order of making, their classes, and the pairs that no class may hold.
#[derive(Drop)]
pub struct EGraph {
    parts: Parts,
}

impl Model for EGraph {
    ghost use Rattle.esc_egraph.specs.Graph.{Graph};

    ghost Value = { Graph };

    ghost use Rattle.esc_egraph.specs.GraphInside.{graph_of, IsHeld};

    ghost view = { graph_of };

    ghost invariant = { IsHeld };
}

impl EGraph {
    /// A graph without nodes.
    pub fn new(alloc: Global) -> EGraph
        ensures empty { result ≡ record { nodes = []; merges = []; forbidden = [] } }
        ensures met { IsMet result }
    {
        EGraph {
            parts: Parts::new(alloc),
        }
    }

    /// How many nodes there are.
    pub fn count(&self) -> usize
        ensures count { result ≡ length self.now.nodes }
        ensures graph { IsGraph self.now }
    {
        self.parts.nodes.count()
    }

    /// The node of the term with this top and these arguments, which is made where it was not
    /// there, in the class that congruence wants. The arguments of a numeral are left out.
    pub fn node<R: CarriesNodes>(
        &mut self,
        top: Top,
        args: &[Node],
        trail: &mut Trail<R>,
    ) -> Result<Node, AllocError>
        requires args_are_there { All (λ a. a < length self.old.nodes) args.now }
        requires met { IsMet self.old }
        ensures node { IfOk result (λ n. IsKnown self.old self.new (shape top args.now) n
            ⊎ IsMade self.old self.new (shape top args.now) n) }
        ensures there { IfOk result (λ n. (n < length self.new.nodes)
            × (shape_at self.new.nodes n ≡ shape top args.now)) }
        ensures grown { length self.old.nodes ≤ length self.new.nodes }
        ensures met { OnOk result (IsMet self.new) }
        ensures err { OnErr result (self.new ≡ self.old) }
        ensures undo { Notes graph_undo R.carried_node trail.old.records trail.new.records self.old
            self.new }
    {
        self.parts.index()?;
        self.parts.node(top, args, trail)
    }

    /// Makes two nodes equal, with all that congruence brings: Closed where a forbidden pair or
    /// two different numerals then stand in one class. Where they are equal already nothing is
    /// changed and nothing noted. Where memory is wanting, a part of the classes may have been
    /// joined.
    pub fn equate<R: CarriesNodes>(
        &mut self,
        a: Node,
        b: Node,
        trail: &mut Trail<R>,
    ) -> Result<State, AllocError>
        requires a_is_there { a < length self.old.nodes }
        requires b_is_there { b < length self.old.nodes }
        requires met { IsMet self.old }
        ensures others { self.new ≡ record self.old { merges = self.new.merges } }
        ensures more { Adds self.old.merges self.new.merges }
        ensures known { SameClass (number_of self.old) a b → (self.new ≡ self.old)
            × (trail.new ≡ trail.old) }
        ensures least { OnOk result (IsLeast self.old.nodes (EqualWith (number_of self.old) a b)
            (number_of self.new)) }
        ensures closed { IfOk result (λ s. (s ≡ State.Closed) ↔ IsBroken self.new) }
        ensures met { IfOk result (λ s. s ≡ State.Open → IsMet self.new) }
        ensures undo { Notes graph_undo R.carried_node trail.old.records trail.new.records self.old
            self.new }
    {
        self.parts.index()?;
        let broken = self.parts.join(a, b, trail)?;
        Ok(state_of(broken))
    }
}

/// Closed where a forbidden pair or two different numerals stand in one class.
fn state_of(broken: bool) -> State
    ensures { (result ≡ State.Closed) ↔ IsTrue broken }
{
    if broken { State::Closed } else { State::Open }
}

impl Undoable for EGraph {
    type Rec = EgraphRec;

    ghost use Rattle.esc_egraph.specs.GraphUndo.{graph_undo, graph_back, CanGoBack};
    ghost use Rattle.esc_trail.proofs.Lawful.{equal_is_lawful};

    ghost undo = { graph_undo };

    ghost lawful = { equal_is_lawful graph_back CanGoBack };

    fn back(&mut self, rec: EgraphRec) {
        match rec {
            EgraphRec::Made => self.parts.back_made(),
            EgraphRec::Merged => self.parts.back_merged(),
            EgraphRec::Forbidden => self.parts.back_forbidden(),
        }
    }
}
