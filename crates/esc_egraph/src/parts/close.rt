ghost use Rattle.std.specs.Prelude.{◌≡◌, ℕ, ◌+◌, ◌<◌, ◌≤◌, [], ◌∷◌, ◌++◌, length, OnOk, OnErr, IfOk, IsTrue, ◌↔◌, ◌⊎◌, List};
ghost use Rattle.std.specs.List.{Contains};
ghost use Rattle.esc_egraph.specs.ClosingInside.{IsClosing, IsSettledIn, IsWaiting, Waiting};
ghost use Rattle.esc_egraph.specs.Congruence.{IsBroken, IsCongruence, IsLeast, EqualWith, IsMet};
ghost use Rattle.esc_egraph.specs.Graph.{Adds, number_of};
ghost use Rattle.esc_egraph.specs.GraphUndo.{graph_undo};
ghost use Rattle.esc_trail.specs.Undo.{Notes};
ghost use Rattle.esc_egraph.specs.PartsInside.{graph_in, IsSound};
ghost use Rattle.esc_union.specs.Merges.{SameClass};

use crate::parts::Parts;
use crate::record::CarriesNodes;
use esc_trail::Trail;
use esc_union::Node;
use std::alloc::AllocError;

impl Parts {
    /// Makes two nodes equal, with all that congruence brings. Tells whether a forbidden pair or
    /// two different numerals then stand in one class.
    pub(crate) fn join<R: CarriesNodes>(
        &mut self,
        a: Node,
        b: Node,
        trail: &mut Trail<R>,
    ) -> Result<bool, AllocError>
        requires sound { IsSound self.old }
        requires whole { IsTrue self.old.whole }
        requires a_is_there { a < length self.old.nodes }
        requires b_is_there { b < length self.old.nodes }
        requires met { IsMet (graph_in self.old) }
        ensures sound { IsSound self.new }
        ensures others { graph_in self.new ≡ record (graph_in self.old)
            { merges = self.new.classes.merges } }
        ensures more { Adds self.old.classes.merges self.new.classes.merges }
        ensures known { SameClass (number_of (graph_in self.old)) a b
            → (graph_in self.new ≡ graph_in self.old) × (trail.new ≡ trail.old) }
        ensures undo { Notes graph_undo R.carried_node trail.old.records trail.new.records
            (graph_in self.old) (graph_in self.new) }
        ensures broken { IfOk result (λ broken. IsTrue broken ↔ IsBroken (graph_in self.new)) }
        ensures least { OnOk result (IsLeast self.old.nodes
            (EqualWith (number_of (graph_in self.old)) a b) (number_of (graph_in self.new))) }
        ensures closed { OnOk result (IsCongruence self.new.nodes (number_of (graph_in self.new))) }
    {
        if self.classes.same(a, b) {
            return Ok(false);
        }
        let start = self.classes.merges().len();
        let broken = self.unite(a, b, false, trail)?;
        self.close(start, broken, trail)
    }

    /// Joins the classes of nodes that are alike, where merges from `start` on moved arguments.
    fn close<R: CarriesNodes>(
        &mut self,
        start: usize,
        broken: bool,
        trail: &mut Trail<R>,
    ) -> Result<bool, AllocError>
        requires sound { IsSound self.old }
        requires start { start ≤ length self.old.classes.merges }
        requires settled { IsSettledIn self.old (IsWaiting self.old
            (record { members = []; member = 0; entries = 0; merge = start })) }
        requires broken { IsTrue broken ↔ IsBroken (graph_in self.old) }
        ensures sound { IsSound self.new }
        ensures step { IsClosing R.carried_node (graph_in self.old) trail.old.records
            (graph_in self.new) trail.new.records }
        ensures broken { IfOk result (λ broken. IsTrue broken ↔ IsBroken (graph_in self.new)) }
        ensures closed { OnOk result (IsCongruence self.new.nodes (number_of (graph_in self.new))) }
    {
        let mut broken = broken;
        let mut merge = start;
        'merges: while merge < self.classes.merges().len() {
            broken = self.settle_moved(merge, broken, trail)?;
            merge += 1;
        }
        self.whole = true;
        Ok(broken)
    }

    /// Settles the nodes of which a merge moved an argument.
    fn settle_moved<R: CarriesNodes>(
        &mut self,
        merge: usize,
        broken: bool,
        trail: &mut Trail<R>,
    ) -> Result<bool, AllocError>
        requires sound { IsSound self.old }
        requires there { merge < length self.old.classes.merges }
        requires settled { IsSettledIn self.old (IsWaiting self.old
            (record { members = []; member = 0; entries = 0; merge = merge })) }
        requires broken { IsTrue broken ↔ IsBroken (graph_in self.old) }
        ensures sound { IsSound self.new }
        ensures step { IsClosing R.carried_node (graph_in self.old) trail.old.records
            (graph_in self.new) trail.new.records }
        ensures settled { OnOk result (IsSettledIn self.new
            (IsWaiting self.new (record {
              members = [];
              member = 0;
              entries = 0;
              merge = merge
                  + 1;
            }))) }
        ensures broken { IfOk result (λ broken. IsTrue broken ↔ IsBroken (graph_in self.new)) }
    {
        let mut broken = broken;
        'members: for place in 0..self.classes.moved(merge).len() {
            let member = self.classes.moved(merge)[place];
            broken = self.settle_over(member, broken, trail)?;
        }
        Ok(broken)
    }

    /// Settles the nodes that have this one as an argument.
    fn settle_over<R: CarriesNodes>(
        &mut self,
        member: Node,
        broken: bool,
        trail: &mut Trail<R>,
    ) -> Result<bool, AllocError>
        requires sound { IsSound self.old }
        requires broken { IsTrue broken ↔ IsBroken (graph_in self.old) }
        ensures sound { IsSound self.new }
        ensures step { IsClosing R.carried_node (graph_in self.old) trail.old.records
            (graph_in self.new) trail.new.records }
        ensures settled { OnOk result ((members : List ℕ) (merge : ℕ) → merge
            ≤ length self.old.classes.merges → IsSettledIn self.old
            (IsWaiting self.old (record {
              members = member
                  ∷ members;
              member = 0;
              entries = 0;
              merge = merge;
            }))
            → IsSettledIn self.new (IsWaiting self.new
            (record { members = members; member = 0; entries = 0; merge = merge }))) }
        ensures broken { IfOk result (λ broken. IsTrue broken ↔ IsBroken (graph_in self.new)) }
    {
        let mut broken = broken;
        let mut end = self.uses.len();
        'places: while let Some(place) = self.uses.last_before(member.index(), end) {
            let node = self.uses.node(place);
            broken = self.settle(node, broken, trail)?;
            end = place;
        }
        Ok(broken)
    }

    /// Joins the class of a node with those of the nodes that are alike to it by the table, and
    /// enters it where there are none.
    fn settle<R: CarriesNodes>(
        &mut self,
        node: Node,
        broken: bool,
        trail: &mut Trail<R>,
    ) -> Result<bool, AllocError>
        requires sound { IsSound self.old }
        requires there { node < length self.old.nodes }
        requires broken { IsTrue broken ↔ IsBroken (graph_in self.old) }
        ensures sound { IsSound self.new }
        ensures step { IsClosing R.carried_node (graph_in self.old) trail.old.records
            (graph_in self.new) trail.new.records }
        ensures settled { OnOk result ((w : Waiting) → w.merge ≤ length self.old.classes.merges
            → IsSettledIn self.old (λ n. (n ≡ node) ⊎ IsWaiting self.old w n)
            → IsSettledIn self.new (IsWaiting self.new w)) }
        ensures broken { IfOk result (λ broken. IsTrue broken ↔ IsBroken (graph_in self.new)) }
    {
        let mut broken = broken;
        'twins: while let Some(other) = self.twin(node) {
            broken = self.unite(node, other, broken, trail)?;
        }
        self.enter(node)?;
        Ok(broken)
    }
}
