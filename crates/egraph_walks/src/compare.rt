//! What a graph answers, beside what the plain model does.

ghost use Rattle.std.specs.Prelude.{◌<◌, length};

use crate::plain::Plain;
use esc_egraph::{EGraph, Node};
use std::alloc::AllocError;

/// Whether the graph and the plain model give the same answers.
pub fn agree(graph: &EGraph, plain: &Plain) -> Result<bool, AllocError> {
    if graph.count() != plain.count() || !are_merges_classes(graph, plain) {
        return Ok(false);
    }
    'nodes: for index in 0..graph.count() {
        let a = Node::new(index);
        if !is_found(graph, a)? || !agree_at(graph, plain, a) {
            return Ok(false);
        }
    }
    Ok(true)
}

/// Whether the merges are of nodes that stand in one class, and are no more than the classes need.
fn are_merges_classes(graph: &EGraph, plain: &Plain) -> bool {
    let merges = graph.merges();
    let joined = merges.iter().all(|m| plain.same(m.0.index(), m.1.index()));
    joined && plain.count().checked_sub(plain.classes()) == Some(merges.len())
}

/// Whether a node is found by its term.
fn is_found(graph: &EGraph, a: Node) -> Result<bool, AllocError>
    requires { a < length graph.now.nodes }
{
    let term = graph.term(a)?;
    Ok(graph.node_of(&term) == Some(a))
}

/// Whether the answers about a node and each other are the same.
fn agree_at(graph: &EGraph, plain: &Plain, a: Node) -> bool
    requires { a < length graph.now.nodes }
{
    if graph.class_of(a).len() != plain.class_size(a.index()) {
        return false;
    }
    'others: for index in 0..graph.count() {
        let b = Node::new(index);
        if graph.same(a, b) != plain.same(a.index(), index)
            || graph.forced_apart(a, b) != plain.is_forced_apart(a.index(), index)
        {
            return false;
        }
    }
    true
}
