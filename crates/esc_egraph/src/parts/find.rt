ghost use Rattle.std.specs.Prelude.{◌≡◌, ℕ, ◌+◌, ◌<◌, ◌≤◌, length, OnOk, OnErr, IfSome, IfNone, IsTrue, ◌↔◌, All, ◌⊎◌, [], ◌∷◌, ◌++◌};
ghost use Rattle.esc_egraph.specs.ClosingInside.{IsLastMatch, IsEntered};
ghost use Rattle.esc_egraph.specs.Congruence.{AreAlike, AllSame};
ghost use Rattle.esc_egraph.specs.Graph.{IsGraph, number_of};
ghost use Rattle.esc_egraph.specs.KeysInside.{key_of};
ghost use Rattle.esc_egraph.specs.PartsInside.{graph_in, IsSound, IsMatch};
ghost use Rattle.esc_index.specs.Places.{entry_at};
ghost use Rattle.esc_nodes.specs.Nodes.{shape_at};
ghost use Rattle.esc_union.specs.Merges.{SameClass, class_number};

use crate::key::signature_key;
use crate::parts::Parts;
use esc_nodes::Top;
use esc_union::{Node, Partition};
use std::alloc::AllocError;

impl Parts {
    /// Whether a node has this top and arguments in the classes of these.
    fn is_alike(&self, node: Node, top: Top, args: &[Node]) -> bool
        requires sound { IsSound self.now }
        requires is_there { node < length self.now.nodes }
        requires args_are_there { All (λ a. a < length self.now.nodes) args.now }
        ensures { IsTrue result ↔ AreAlike (class_number self.now.classes.merges)
            (shape_at self.now.nodes node) (record { top = top; args = args.now }) }
    {
        self.nodes.top(node) == top && same_classes(&self.classes, self.nodes.args(node), args)
    }

    /// The last entry before `end` that has this key and is alike to this top and these arguments.
    fn last_match(&self, key: usize, top: Top, args: &[Node], end: usize) -> Option<usize>
        requires sound { IsSound self.now }
        requires args_are_there { All (λ a. a < length self.now.nodes) args.now }
        requires key { key ≡ key_of (class_number self.now.classes.merges)
            (record { top = top; args = args.now }) }
        requires bound { end ≤ length self.now.table }
        requires has { end < length self.now.table → (entry_at self.now.table end).0 ≡ key }
        ensures some { IfSome result (λ place. IsLastMatch self.now
            (record { top = top; args = args.now }) end place) }
        ensures none { IfNone result ((place : ℕ) → place < end
            → IsMatch self.now.nodes self.now.classes.merges self.now.table
            (record { top = top; args = args.now }) place → ⊥) }
    {
        let mut end = end;
        'places: while let Some(place) = self.table.last_before(key, end) {
            if self.is_alike(self.table.node(place), top, args) {
                return Some(place);
            }
            end = place;
        }
        None
    }

    /// A node with this top and arguments in the classes of these.
    pub(super) fn find_alike(&self, top: Top, args: &[Node]) -> Option<Node>
        requires sound { IsSound self.now }
        requires args_are_there { All (λ a. a < length self.now.nodes) args.now }
        ensures some { IfSome result (λ k. (k < length self.now.nodes)
            × AreAlike (class_number self.now.classes.merges) (shape_at self.now.nodes k)
            (record { top = top; args = args.now })) }
        ensures entered { IfSome result (λ k. IsEntered self.now
            (record { top = top; args = args.now })) }
        ensures none { IfNone result (IsEntered self.now (record { top = top; args = args.now })
            → ⊥) }
    {
        let key = signature_key(&self.classes, top, args);
        match self.last_match(key, top, args, self.table.len()) {
            Some(place) => Some(self.table.node(place)),
            None => None,
        }
    }

    /// A node that is alike to this one by the table, and stands in another class.
    pub(super) fn twin(&self, node: Node) -> Option<Node>
        requires sound { IsSound self.now }
        requires there { node < length self.now.nodes }
        ensures there { IfSome result (λ k. k < length self.now.nodes) }
        ensures alike { IfSome result (λ k. AreAlike (class_number self.now.classes.merges)
            (shape_at self.now.nodes k) (shape_at self.now.nodes node)) }
        ensures apart { IfSome result (λ k. SameClass (class_number self.now.classes.merges) node k
            → ⊥) }
        ensures none { IfNone result ((place : ℕ) → IsMatch self.now.nodes self.now.classes.merges
            self.now.table (shape_at self.now.nodes node) place
            → SameClass (class_number self.now.classes.merges) node
            (entry_at self.now.table place).1) }
    {
        let (top, args) = (self.nodes.top(node), self.nodes.args(node));
        let key = signature_key(&self.classes, top, args);
        let mut end = self.table.len();
        'places: while let Some(place) = self.last_match(key, top, args, end) {
            let other = self.table.node(place);
            if !self.classes.same(node, other) {
                return Some(other);
            }
            end = place;
        }
        None
    }

    /// Enters a node into the table, where it has no match.
    pub(super) fn enter(&mut self, node: Node) -> Result<(), AllocError>
        requires sound { IsSound self.old }
        requires there { node < length self.old.nodes }
        ensures sound { IsSound self.new }
        ensures graph { graph_in self.new ≡ graph_in self.old }
        ensures ok { OnOk result ((IsEntered self.old (shape_at self.old.nodes node)
            × (self.new.table ≡ self.old.table)) ⊎
            ((IsEntered self.old (shape_at self.old.nodes node) → ⊥)
            × (self.new.table ≡ self.old.table ++ (
              key_of (class_number self.old.classes.merges)
                  (shape_at self.old.nodes node),
              node,
            ) ∷ []))) }
    {
        if let Some(key) = self.unmatched(node) {
            self.table.push(key, node)?;
        }
        Ok(())
    }

    /// The key of a node, where it has no match.
    fn unmatched(&self, node: Node) -> Option<usize>
        requires sound { IsSound self.now }
        requires there { node < length self.now.nodes }
        ensures some { IfSome result (λ key. (key ≡ key_of (class_number self.now.classes.merges)
            (shape_at self.now.nodes node)) × (IsEntered self.now (shape_at self.now.nodes node)
            → ⊥)) }
        ensures none { IfNone result (IsEntered self.now (shape_at self.now.nodes node)) }
    {
        let (top, args) = (self.nodes.top(node), self.nodes.args(node));
        if self.find_alike(top, args).is_some() {
            return None;
        }
        Some(signature_key(&self.classes, top, args))
    }
}

/// Whether the nodes of two lists stand in one class, place by place.
pub(super) fn same_classes(classes: &Partition, xs: &[Node], ys: &[Node]) -> bool
    requires xs_are_there { All (λ x. x < classes.now.count) xs.now }
    requires ys_are_there { All (λ y. y < classes.now.count) ys.now }
    ensures { IsTrue result ↔ AllSame (class_number classes.now.merges) xs.now ys.now }
{
    if xs.len() != ys.len() {
        return false;
    }
    'places: for (x, y) in xs.iter().zip(ys) {
        if !classes.same(*x, *y) {
            return false;
        }
    }
    true
}
