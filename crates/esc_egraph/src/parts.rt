//! How a graph is held, and each of its changes.

ghost use Rattle.std.specs.Prelude.{◌≡◌, ℕ, ◌+◌, ◌-◌, ◌<◌, ◌≤◌, [], ◌∷◌, ◌++◌, length, take, OnOk, OnErr, IfOk, IsTrue, ◌↔◌, ◌^◌};
ghost use Rattle.esc_trail.specs.Undo.{Notes};
ghost use Rattle.esc_union.specs.Merges.{AreMerges, SameClass, class_number};
ghost use Rattle.esc_egraph.specs.GraphUndo.{graph_undo};
ghost use Rattle.esc_egraph.specs.Graph.{IsGraph, number_of};
ghost use Rattle.esc_egraph.specs.Congruence.{ForcedApart, IsBroken};
ghost use Rattle.esc_egraph.specs.PartsInside.{graph_in, IsSound, joined_place};
ghost use Rattle.esc_egraph.specs.PassesInside.{IsUnited};
ghost use Rattle.esc_egraph.specs.SidesInside.{IsSided};
ghost use Rattle.esc_egraph.specs.declared.step.Step.{Step};

mod apart;
mod back;
mod close;
mod find;
mod make;

use crate::pairs::Sides;
use crate::record::{CarriesNodes, EgraphRec};
use crate::step::Step;
use esc_index::Index;
use esc_nodes::Nodes;
use esc_trail::Trail;
use esc_union::{Node, Partition, narrow};
use std::alloc::{AllocError, Global};

/// The nodes in the order of making, their classes, and what is looked up in them.
#[derive(Drop)]
pub(crate) struct Parts {
    pub(crate) nodes: Nodes,
    pub(crate) classes: Partition,
    pub(crate) forbidden: Vec<(Node, Node)>,
    /// The forbidden pairs by the roots of their sides.
    pub(crate) sides: Sides,
    /// For each node the place of the first numeral among its members.
    pub(crate) numerals: Vec<usize>,
    /// Each argument of each node, with the node.
    pub(crate) uses: Index,
    /// Nodes by their signatures.
    pub(crate) table: Index,
    pub(crate) steps: Vec<Step>,
    /// Whether each node has a match in the table.
    pub(crate) whole: bool,
}

impl Parts {
    pub(crate) fn new(alloc: Global) -> Parts
        ensures sound { IsSound result }
        ensures empty { graph_in result ≡ record { nodes = []; merges = []; forbidden = [] } }
    {
        Parts {
            nodes: Nodes::new(alloc),
            classes: Partition::new(alloc),
            forbidden: Vec::new(alloc),
            sides: Sides::new(alloc),
            numerals: Vec::new(alloc),
            uses: Index::new(alloc),
            table: Index::new(alloc),
            steps: Vec::new(alloc),
            whole: true,
        }
    }

    /// What there is now.
    fn step(&self) -> Result<Step, AllocError>
        ensures { IfOk result (λ s. s ≡ record {
          whole = self.now.whole;
          nodes = length self.now.nodes;
          merges
              = length self.now.classes.merges;
          table = length self.now.table;
        }) }
    {
        Ok(Step {
            whole: self.whole,
            nodes: narrow(self.nodes.count())?,
            merges: narrow(self.classes.merges().len())?,
            table: narrow(self.table.len())?,
        })
    }

    /// Makes the class of one node a part of that of another, and notes it.
    fn merge<R: CarriesNodes>(
        &mut self,
        from: Node,
        into: Node,
        trail: &mut Trail<R>,
    ) -> Result<(), AllocError>
        requires sound { IsSound self.old }
        requires from_is_there { from < length self.old.nodes }
        requires into_is_there { into < length self.old.nodes }
        requires apart { SameClass (class_number self.old.classes.merges) from into → ⊥ }
        ensures sound { IsSound self.new }
        ensures ok { OnOk result (graph_in self.new
            ≡ record (graph_in self.old) {
              merges = self.old.classes.merges ++ (from, into)
                  ∷ [];
            }) }
        ensures err { OnErr result (graph_in self.new ≡ graph_in self.old) }
        ensures table { self.new.table ≡ self.old.table }
        ensures undo { Notes graph_undo R.carried_node trail.old.records trail.new.records
            (graph_in self.old) (graph_in self.new) }
    {
        trail.reserve(1)?;
        self.merge_classes(from, into)?;
        trail.note(R::carry_node(EgraphRec::Merged));
        Ok(())
    }

    /// Makes the class of one node a part of that of another.
    fn merge_classes(&mut self, from: Node, into: Node) -> Result<(), AllocError>
        requires sound { IsSound self.old }
        requires from_is_there { from < length self.old.nodes }
        requires into_is_there { into < length self.old.nodes }
        requires apart { SameClass (class_number self.old.classes.merges) from into → ⊥ }
        ensures sound { IsSound self.new }
        ensures ok { OnOk result (graph_in self.new
            ≡ record (graph_in self.old) {
              merges = self.old.classes.merges ++ (from, into)
                  ∷ [];
            }) }
        ensures err { OnErr result (graph_in self.new ≡ graph_in self.old) }
        ensures table { self.new.table ≡ self.old.table }
    {
        self.steps.reserve(1)?;
        let step = self.step()?;
        let small = self.classes.root(from);
        let large = self.classes.root(into);
        let moved = self.classes.members(from).len();
        merge_sided(
            &mut self.classes,
            &mut self.sides,
            self.forbidden.as_slice(),
            from,
            into,
        )?;
        let all = self.classes.members(into).len();
        let place = first_place(
            self.numerals[large.index()],
            self.numerals[small.index()],
            all - moved,
            moved,
        );
        self.numerals[large.index()] = place;
        self.steps.push(step).unwrap();
        self.whole = false;
        Ok(())
    }

    /// Makes one class of the classes of two nodes: the smaller becomes a part of the larger.
    /// Tells whether a forbidden pair or two different numerals then stand in one class.
    fn unite<R: CarriesNodes>(
        &mut self,
        a: Node,
        b: Node,
        broken: bool,
        trail: &mut Trail<R>,
    ) -> Result<bool, AllocError>
        requires sound { IsSound self.old }
        requires a_is_there { a < length self.old.nodes }
        requires b_is_there { b < length self.old.nodes }
        requires apart { SameClass (class_number self.old.classes.merges) a b → ⊥ }
        requires broken { IsTrue broken ↔ IsBroken (graph_in self.old) }
        ensures sound { IsSound self.new }
        ensures ok { OnOk result (IsUnited (graph_in self.old) (graph_in self.new) a b) }
        ensures broken { IfOk result (λ broken. IsTrue broken ↔ IsBroken (graph_in self.new)) }
        ensures err { OnErr result (graph_in self.new ≡ graph_in self.old) }
        ensures table { self.new.table ≡ self.old.table }
        ensures undo { Notes graph_undo R.carried_node trail.old.records trail.new.records
            (graph_in self.old) (graph_in self.new) }
    {
        let forced = broken || self.forced_apart(a, b);
        self.merge_smaller(a, b, trail)?;
        Ok(forced)
    }

    /// The same, without a look at what may not stand in one class.
    fn merge_smaller<R: CarriesNodes>(
        &mut self,
        a: Node,
        b: Node,
        trail: &mut Trail<R>,
    ) -> Result<(), AllocError>
        requires sound { IsSound self.old }
        requires a_is_there { a < length self.old.nodes }
        requires b_is_there { b < length self.old.nodes }
        requires apart { SameClass (class_number self.old.classes.merges) a b → ⊥ }
        ensures sound { IsSound self.new }
        ensures ok { OnOk result (IsUnited (graph_in self.old) (graph_in self.new) a b) }
        ensures err { OnErr result (graph_in self.new ≡ graph_in self.old) }
        ensures table { self.new.table ≡ self.old.table }
        ensures undo { Notes graph_undo R.carried_node trail.old.records trail.new.records
            (graph_in self.old) (graph_in self.new) }
    {
        if self.classes.members(a).len() <= self.classes.members(b).len() {
            self.merge(a, b, trail)
        } else {
            self.merge(b, a, trail)
        }
    }
}

/// Makes the class of one node a part of that of another, with the sides of pairs in it.
fn merge_sided(
    classes: &mut Partition,
    sides: &mut Sides,
    pairs: &[(Node, Node)],
    from: Node,
    into: Node,
) -> Result<(), AllocError>
    requires merged { AreMerges classes.old.count classes.old.merges }
    requires sided { IsSided classes.old.merges pairs.now sides.old }
    requires from_is_there { from < classes.old.count }
    requires into_is_there { into < classes.old.count }
    requires apart { SameClass (class_number classes.old.merges) from into → ⊥ }
    ensures ok { OnOk result (classes.new ≡ record classes.old {
      merges = classes.old.merges
          ++ (from, into) ∷ [];
    }) }
    ensures sided { OnOk result (IsSided (classes.old.merges ++ (from, into) ∷ []) pairs.now
        sides.new) }
    ensures err { OnErr result (classes.new ≡ classes.old) }
    ensures kept { OnErr result (IsSided classes.old.merges pairs.now sides.new) }
{
    sides.merge(classes, pairs, from, into)?;
    if let Err(error) = classes.merge(from, into) {
        sides.back_to(classes.merges().len(), pairs.len());
        return Err(error);
    }
    Ok(())
}

/// The place of the first numeral among the members of a class and those of another after them.
fn first_place(place: usize, other: usize, count: usize, more: usize) -> usize
    requires { count + more < 2 ^ 64 }
    ensures { result ≡ joined_place place other count more }
{
    if place < count {
        place
    } else {
        count + other.min(more)
    }
}
