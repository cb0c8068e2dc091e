//! The nodes at which a term may stand.

ghost use Rattle.std.specs.Prelude.{◌≡◌, ◌<◌, ◌↔◌, IfOk, IsTrue, length};
ghost use Rattle.std.specs.List.{All, filter};
ghost use Rattle.esc_egraph.specs.Graph.{IsGraph};
ghost use Rattle.esc_match.specs.CandidatesInside.{class_list, has_top, numbers_below, same_top};

use esc_egraph::{EGraph, Node, Top};
use std::alloc::{AllocError, Global};

fn are_equal(left: Top, right: Top) -> bool
    ensures { IsTrue result ↔ (left ≡ right) }
{
    left == right
}

/// Whether two tops are the same.
fn is_same_top(left: Top, right: Top) -> bool
    ensures { result ≡ same_top left right }
{
    are_equal(left, right)
}

/// All nodes, in the order of making.
#[tactic(auto, using(crate::proofs::ClassLists::below))]
pub(crate) fn all_nodes(alloc: Global, graph: &EGraph) -> Result<Vec<Node>, AllocError>
    ensures equal { IfOk result (λ nodes. nodes.items ≡ numbers_below (length graph.now.nodes)) }
    ensures there { IfOk result (λ nodes. All (λ n. n < length graph.now.nodes) nodes.items) }
    ensures graph { IsGraph graph.now }
{
    let mut nodes = Vec::new(alloc);
    'nodes: for index in 0..graph.count() {
        nodes.push(Node::new(index))?;
    }
    Ok(nodes)
}

/// The nodes of a node's class, in the order of making.
pub(crate) fn class_nodes(
    alloc: Global,
    graph: &EGraph,
    node: Node,
) -> Result<Vec<Node>, AllocError>
    requires { node < length graph.now.nodes }
    ensures equal { IfOk result (λ nodes. nodes.items ≡ class_list graph.now node) }
    ensures there { IfOk result (λ nodes. All (λ n. n < length graph.now.nodes) nodes.items) }
{
    let mut nodes = graph.class_of(node).to_vec(alloc)?;
    nodes.sort_unstable_by_key(|member| member.index());
    Ok(nodes)
}

/// Those of the nodes that have this top.
pub(crate) fn with_top(
    alloc: Global,
    graph: &EGraph,
    top: Top,
    nodes: &[Node],
) -> Result<Vec<Node>, AllocError>
    requires { All (λ n. n < length graph.now.nodes) nodes.now }
    ensures equal { IfOk result (λ kept. kept.items ≡ filter (has_top graph.now top) nodes.now) }
    ensures there { IfOk result (λ kept. All (λ n. n < length graph.now.nodes) kept.items) }
{
    let mut kept = Vec::new(alloc);
    'nodes: for node in nodes {
        if is_same_top(top, graph.top(*node)) {
            kept.push(*node)?;
        }
    }
    Ok(kept)
}

/// Those of a node's class that have this top, in the order of making.
pub(crate) fn class_with_top(
    alloc: Global,
    graph: &EGraph,
    top: Top,
    node: Node,
) -> Result<Vec<Node>, AllocError>
    requires { node < length graph.now.nodes }
    ensures equal { IfOk result
        (λ nodes. nodes.items ≡ filter (has_top graph.now top) (class_list graph.now node)) }
    ensures there { IfOk result (λ nodes. All (λ n. n < length graph.now.nodes) nodes.items) }
{
    let nodes = class_nodes(alloc, graph, node)?;
    with_top(alloc, graph, top, nodes.as_slice())
}
