//! Which arithmetic nodes a theory knows to be equal.

ghost use Rattle.std.specs.Prelude.{◌≡◌, ℕ, ◌+◌, ◌<◌, ◌≤◌, IfOk, IfSome, map, take};
ghost use Rattle.std.specs.List.{Contains};
ghost use Rattle.esc_egraph.specs.Graph.{number_of};
ghost use Rattle.esc_sharing.specs.AddingInside.{WereKnown};
ghost use Rattle.esc_sharing.specs.KnownInside.{AreKnownBy, AreLabeled, IsRelabeled, relabeled};
ghost use Rattle.esc_sharing.specs.Nodes.{node_count};
ghost use Rattle.esc_sharing.specs.Numbers.{AreNumbersOf};

use crate::sharing::Sharing;
use crate::theory::Theory;
use esc_egraph::Node;
use std::alloc::AllocError;

/// The arithmetic nodes, in the order of making, with labels: those with one label are equal.
pub(crate) type Known = Vec<(Node, usize)>;

impl<T: Theory> Sharing<T> {
    /// Labels for what is known where so many of the arithmetic nodes were so before: of these the
    /// ones of one class.
    pub(crate) fn known_numbers(&self, before: usize) -> Result<Known, AllocError>
        requires numbers { AreNumbersOf self.now.graph (T.numbers self.now.theory) }
        ensures labeled { IfOk result (λ v. AreLabeled (T.numbers self.now.theory) v.items) }
        ensures known { IfOk result (λ v. (a b : ℕ) → AreKnownBy v.items a b
            → WereKnown (take before (T.numbers self.now.theory)) (number_of self.now.graph) a b) }
    {
        let mut known = Vec::new(self.alloc);
        'numbers: for place in 0..self.theory.number_count() {
            let node = self.theory.number_at(place);
            let label = self.label(node, place, before)?;
            known.push((node, label))?;
        }
        known.sort_unstable_by_key(|entry| entry.0.index());
        Ok(known)
    }

    /// The number of the node's class, or a number of its own where it was not arithmetic before.
    fn label(&self, node: Node, place: usize, before: usize) -> Result<usize, AllocError>
        requires node { node < node_count self.now.graph }
        ensures old { IfOk result (λ label. place < before
            → (label ≡ number_of self.now.graph node) × (label < node_count self.now.graph)) }
        ensures own { IfOk result (λ label. before ≤ place
            → label ≡ node_count self.now.graph + place) }
    {
        if place < before {
            return Ok(self.graph.class_number(node).index());
        }
        match self.graph.count().checked_add(place) {
            Some(label) => Ok(label),
            None => Err(AllocError),
        }
    }
}

/// Takes two nodes to be equal.
pub(crate) fn know(known: &mut [(Node, usize)], a: Node, b: Node)
    ensures { IsRelabeled known.old known.new a b }
{
    let Some(from) = label_of(known, a) else {
        return;
    };
    let Some(into) = label_of(known, b) else {
        return;
    };
    relabel(known, from, into);
}

/// A label of a node.
fn label_of(known: &[(Node, usize)], a: Node) -> Option<usize>
    ensures { IfSome result (λ label. Contains known.now (a, label)) }
{
    'entries: for place in 0..known.len() {
        let entry = known[place];
        if entry.0 == a {
            return Some(entry.1);
        }
    }
    None
}

/// Makes a label another one.
pub(crate) fn relabel(known: &mut [(Node, usize)], from: usize, into: usize)
    ensures { known.new ≡ map (relabeled from into) known.old }
{
    'entries: for place in 0..known.len() {
        let entry = known[place];
        let label = if entry.1 == from { into } else { entry.1 };
        known[place] = (entry.0, label);
    }
}
