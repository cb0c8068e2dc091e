ghost use Rattle.std.specs.Prelude.{◌≡◌, ℕ, ◌+◌, ◌<◌, ◌≤◌, [], ◌∷◌, ◌++◌, length, map, OnOk, OnErr, IfOk, IsTrue, All, ◌⊎◌, if◌then◌else◌, List};
ghost use Rattle.esc_trail.specs.Undo.{Notes};
ghost use Rattle.esc_egraph.specs.ClosingInside.{IsEntered};
ghost use Rattle.esc_egraph.specs.Congruence.{IsMet, IsKnown, IsMade, AreAlike};
ghost use Rattle.esc_egraph.specs.Graph.{Graph, IsGraph};
ghost use Rattle.esc_egraph.specs.GraphUndo.{graph_undo};
ghost use Rattle.esc_egraph.specs.PartsInside.{graph_in, IsFirst, IsSound};
ghost use Rattle.esc_nodes.specs.Nodes.{Shape, shape, shape_at, AreTerms};
ghost use Rattle.esc_union.specs.Merges.{AreMerges, class_number};

use crate::key::signature_key;
use crate::parts::Parts;
use crate::record::{CarriesNodes, EgraphRec};
use esc_index::Index;
use esc_nodes::{Nodes, Top, arguments};
use esc_trail::Trail;
use esc_union::{Node, Partition};
use std::alloc::AllocError;

impl Parts {
    /// The node of the term with this top and these arguments, which is made where it was not
    /// there, in the class that congruence wants. The arguments of a numeral are left out.
    pub(crate) fn node<R: CarriesNodes>(
        &mut self,
        top: Top,
        args: &[Node],
        trail: &mut Trail<R>,
    ) -> Result<Node, AllocError>
        requires sound { IsSound self.old }
        requires whole { IsTrue self.old.whole }
        requires args_are_there { All (λ a. a < length self.old.nodes) args.now }
        requires met { IsMet (graph_in self.old) }
        ensures sound { IsSound self.new }
        ensures node { IfOk result (λ n. IsKnown (graph_in self.old) (graph_in self.new)
            (shape top args.now) n ⊎ IsMade (graph_in self.old) (graph_in self.new)
            (shape top args.now) n) }
        ensures there { IfOk result (λ n. (n < length self.new.nodes)
            × (shape_at self.new.nodes n ≡ shape top args.now)) }
        ensures grown { length self.old.nodes ≤ length self.new.nodes }
        ensures met { OnOk result (IsMet (graph_in self.new)) }
        ensures err { OnErr result (graph_in self.new ≡ graph_in self.old) }
        ensures undo { Notes graph_undo R.carried_node trail.old.records trail.new.records
            (graph_in self.old) (graph_in self.new) }
    {
        let args = arguments(top, args);
        if let Some(node) = self.nodes.find(top, args) {
            return Ok(node);
        }
        let node = Node::new(self.nodes.count());
        match self.find_alike(top, args) {
            Some(other) => self.append_to(top, args, other, trail)?,
            None => self.append(top, args, trail)?,
        }
        Ok(node)
    }

    /// Makes a node, which stands alone.
    fn append<R: CarriesNodes>(
        &mut self,
        top: Top,
        args: &[Node],
        trail: &mut Trail<R>,
    ) -> Result<(), AllocError>
        requires sound { IsSound self.old }
        requires args_are_there { All (λ a. a < length self.old.nodes) args.now }
        requires bare { shape top args.now ≡ record { top = top; args = args.now } }
        requires absent { (k : ℕ) → k < length self.old.nodes → shape_at self.old.nodes k
            ≡ record { top = top; args = args.now } → ⊥ }
        ensures sound { IsSound self.new }
        ensures ok { OnOk result (graph_in self.new
            ≡ record (graph_in self.old) {
              nodes = self.old.nodes
                  ++ record { top = top; args = args.now } ∷ [];
            }) }
        ensures err { OnErr result (graph_in self.new ≡ graph_in self.old) }
        ensures undo { Notes graph_undo R.carried_node trail.old.records trail.new.records
            (graph_in self.old) (graph_in self.new) }
    {
        trail.reserve(1)?;
        self.make(top, args, true)?;
        trail.note(R::carry_node(EgraphRec::Made));
        Ok(())
    }

    /// Makes a node, in the class of another that is alike to it.
    fn append_to<R: CarriesNodes>(
        &mut self,
        top: Top,
        args: &[Node],
        other: Node,
        trail: &mut Trail<R>,
    ) -> Result<(), AllocError>
        requires sound { IsSound self.old }
        requires whole { IsTrue self.old.whole }
        requires args_are_there { All (λ a. a < length self.old.nodes) args.now }
        requires other_is_there { other < length self.old.nodes }
        requires bare { shape top args.now ≡ record { top = top; args = args.now } }
        requires absent { (k : ℕ) → k < length self.old.nodes → shape_at self.old.nodes k
            ≡ record { top = top; args = args.now } → ⊥ }
        requires entered { IsEntered self.old (record { top = top; args = args.now }) }
        ensures sound { IsSound self.new }
        ensures ok { OnOk result (graph_in self.new
            ≡ record (graph_in self.old) {
              nodes = self.old.nodes
                  ++ record { top = top; args = args.now } ∷ [];
              merges = self.old.classes.merges
                  ++ (length self.old.nodes, other) ∷ [];
            }) }
        ensures err { OnErr result (graph_in self.new ≡ graph_in self.old) }
        ensures undo { Notes graph_undo R.carried_node trail.old.records trail.new.records
            (graph_in self.old) (graph_in self.new) }
    {
        trail.reserve(2)?;
        let node = Node::new(self.nodes.count());
        self.make(top, args, false)?;
        if let Err(error) = self.merge_classes(node, other) {
            self.back_made();
            return Err(error);
        }
        self.whole = true;
        trail.note(R::carry_node(EgraphRec::Made));
        trail.note(R::carry_node(EgraphRec::Merged));
        Ok(())
    }

    /// Makes a node, which stands alone, and has an entry of its own if none matches it.
    fn make(&mut self, top: Top, args: &[Node], enters: bool) -> Result<(), AllocError>
        requires sound { IsSound self.old }
        requires args_are_there { All (λ a. a < length self.old.nodes) args.now }
        requires bare { shape top args.now ≡ record { top = top; args = args.now } }
        requires absent { (k : ℕ) → k < length self.old.nodes → shape_at self.old.nodes k
            ≡ record { top = top; args = args.now } → ⊥ }
        requires enters { IsTrue enters ⊎ IsEntered self.old
            (record { top = top; args = args.now }) }
        ensures sound { IsSound self.new }
        ensures ok { OnOk result (graph_in self.new
            ≡ record (graph_in self.old) {
              nodes = self.old.nodes
                  ++ record { top = top; args = args.now } ∷ [];
            }) }
        ensures whole { self.new.whole ≡ self.old.whole }
        ensures err { OnErr result (graph_in self.new ≡ graph_in self.old) }
    {
        self.steps.reserve(1)?;
        self.numerals.reserve(1)?;
        let step = self.step()?;
        let key = signature_key(&self.classes, top, args);
        push_entries(
            &mut self.uses,
            &mut self.table,
            step.nodes as usize,
            key,
            args,
            enters,
        )?;
        if let Err(error) = push_node(&mut self.nodes, &mut self.classes, top, args) {
            self.uses.truncate(self.uses.len() - args.len());
            self.table.truncate(step.table as usize);
            return Err(error);
        }
        self.steps.push(step).unwrap();
        self.numerals.push(place_of(top)).unwrap();
        Ok(())
    }
}

/// The place of the first numeral among a node alone.
fn place_of(top: Top) -> usize
    ensures { (nodes : List Shape) (n : ℕ) → (shape_at nodes n).top ≡ top
        → IsFirst nodes (n ∷ []) result }
{
    match top {
        Top::Num(_) => 0,
        Top::App(_) => 1,
    }
}

/// Adds a node, which stands alone.
fn push_node(
    nodes: &mut Nodes,
    classes: &mut Partition,
    top: Top,
    args: &[Node],
) -> Result<(), AllocError>
    requires args_are_there { All (λ a. a < length nodes.old) args.now }
    requires bare { shape top args.now ≡ record { top = top; args = args.now } }
    requires absent { (k : ℕ) → k < length nodes.old → shape_at nodes.old k
        ≡ record { top = top; args = args.now } → ⊥ }
    requires merges { AreMerges classes.old.count classes.old.merges }
    ensures nodes { OnOk result (nodes.new ≡ nodes.old
        ++ record { top = top; args = args.now } ∷ []) }
    ensures classes { OnOk result (classes.new ≡ record classes.old {
      count = classes.old.count
          + 1;
    }) }
    ensures terms { OnOk result (AreTerms nodes.new) }
    ensures no_nodes { OnErr result (nodes.new ≡ nodes.old) }
    ensures no_classes { OnErr result (classes.new ≡ classes.old) }
{
    classes.push()?;
    if let Err(error) = nodes.push(top, args) {
        classes.pop();
        return Err(error);
    }
    Ok(())
}

/// Adds the entries of a node: one for each argument, and one in the table, if it has one there.
fn push_entries(
    uses: &mut Index,
    table: &mut Index,
    number: usize,
    key: usize,
    args: &[Node],
    enters: bool,
) -> Result<(), AllocError>
    ensures uses { OnOk result (uses.new ≡ uses.old ++ map (λ a. (a, number)) args.now) }
    ensures table { OnOk result (table.new ≡ (if enters then table.old ++ (key, number)
        ∷ [] else table.old)) }
    ensures no_uses { OnErr result (uses.new ≡ uses.old) }
    ensures no_table { OnErr result (table.new ≡ table.old) }
{
    let count = uses.len();
    push_uses(uses, number, args)?;
    if enters {
        if let Err(error) = table.push(key, Node::new(number)) {
            uses.truncate(count);
            return Err(error);
        }
    }
    Ok(())
}

/// Adds a node for each of its arguments.
fn push_uses(uses: &mut Index, number: usize, args: &[Node]) -> Result<(), AllocError>
    ensures ok { OnOk result (uses.new ≡ uses.old ++ map (λ a. (a, number)) args.now) }
    ensures err { OnErr result (uses.new ≡ uses.old) }
{
    let count = uses.len();
    'places: for arg in args {
        if let Err(error) = uses.push(arg.index(), Node::new(number)) {
            uses.truncate(count);
            return Err(error);
        }
    }
    Ok(())
}
