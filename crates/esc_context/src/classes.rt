//! The classes of an open branch, with their values.

ghost use Rattle.std.specs.Prelude.{◌≡◌, ℕ, ◌<◌, true, false, IfOk, length, map, slice_index_or};
ghost use Rattle.std.specs.List.{All, Contains};
ghost use Rattle.std.specs.List.Sorted.{IsStrictlyIncreasing};
ghost use Rattle.esc_union.specs.Merges.{IsClassOf};
ghost use Rattle.esc_egraph.specs.Graph.{number_of};
ghost use Rattle.esc_simplex.specs.View.{IsSimplex};
ghost use Rattle.esc_sharing.specs.Nodes.{classes_in, node_count, node_term};
ghost use Rattle.esc_sharing.specs.Shared.{IsShared};
ghost use Rattle.esc_outcome.specs.Found.{members_of};
ghost use Rattle.esc_context.specs.ClassesInside.{HasSample, IsClassOfNodes, IsSampleAmong};
ghost use Rattle.esc_context.specs.Left.{shared_of};

use esc_egraph::{EGraph, Node};
use esc_frac::Frac;
use esc_outcome::{Class, Classes};
use esc_sharing::Sharing;
use esc_simplex::Simplex;
use sqlite_items::Items;
use std::alloc::{AllocError, Global};

/// The classes of the terms in play, in the order of their first terms, each with its terms in the
/// order of making, and with the sample of one of them where it is arithmetic.
pub(crate) fn classes_of(alloc: Global, sharing: &Sharing<Simplex>) -> Result<Classes, AllocError>
    requires shared { IsShared (shared_of sharing.now) }
    ensures members { IfOk result (λ classes. members_of classes ≡ classes_in sharing.now.graph) }
    ensures values { IfOk result (All (HasSample sharing.now)) }
{
    let graph = sharing.graph();
    let mut listed = vec![in alloc; false; graph.count()]?;
    let mut classes = Items::new(alloc);
    'nodes: for index in 0..graph.count() {
        if !listed[index] {
            let members = members(alloc, graph, Node::new(index))?;
            mark(&mut listed, members.as_slice());
            let class = class_of(alloc, sharing, members.as_slice())?;
            classes.push(class)?;
        }
    }
    Ok(classes)
}

/// The nodes of a node's class, in the order of making.
fn members(alloc: Global, graph: &EGraph, node: Node) -> Result<Vec<Node>, AllocError>
    requires { node < node_count graph.now }
    ensures members { IfOk result
        (λ v. IsClassOf (node_count graph.now) (number_of graph.now) node v.items) }
    ensures rising { IfOk result (λ v. IsStrictlyIncreasing v.items) }
{
    let mut members = graph.class_of(node).to_vec(alloc)?;
    members.sort_unstable_by_key(|member| member.index());
    Ok(members)
}

/// The class with these nodes.
fn class_of(
    alloc: Global,
    sharing: &Sharing<Simplex>,
    members: &[Node],
) -> Result<Class, AllocError>
    requires simplex { IsSimplex sharing.now.theory }
    requires members { All (λ n. n < node_count sharing.now.graph) members.now }
    ensures { IfOk result (IsClassOfNodes sharing.now members.now) }
{
    let mut terms = Items::new(alloc);
    'members: for member in members {
        let term = sharing.graph().term(*member)?;
        terms.push(term)?;
    }
    let value = sample_among(sharing.theory(), members);
    Ok(Class { terms, value })
}

/// The sample of the first of these nodes that is arithmetic.
fn sample_among(theory: &Simplex, members: &[Node]) -> Option<Frac>
    requires simplex { IsSimplex theory.now }
    ensures { IsSampleAmong theory.now members.now result }
{
    'members: for member in members {
        if let Some(unknown) = theory.unknown_of(*member) {
            return Some(theory.value(unknown));
        }
    }
    None
}

/// Marks these nodes.
fn mark(marks: &mut Vec<bool>, nodes: &[Node])
    requires { All (λ n. n < length marks.old.items) nodes.now }
    ensures count { length marks.new.items ≡ length marks.old.items }
    ensures these { (k : ℕ) → Contains nodes.now k → slice_index_or marks.new.items k false ≡ true }
    ensures others { (k : ℕ) → (Contains nodes.now k → ⊥) →
        slice_index_or marks.new.items k false ≡ slice_index_or marks.old.items k false }
{
    'nodes: for node in nodes {
        marks[node.index()] = true;
    }
}
