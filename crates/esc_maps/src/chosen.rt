//! The nodes that stand for their classes.

ghost use Rattle.std.specs.Prelude.{◌≡◌, ◌+◌, ◌<◌, ◌↔◌, length, IfOk, IsTrue};
ghost use Rattle.esc_egraph.specs.Graph.{IsGraph};
ghost use Rattle.esc_maps.specs.Chosen.{IsShallower, StandFor};
ghost use Rattle.esc_maps.specs.ChosenInside.{AreLed};

use esc_egraph::{EGraph, Node};
use std::alloc::{AllocError, Global};

/// Whether the first node has less depth, or the same and was made before.
pub(crate) fn is_shallower(depths: &[u64], first: Node, second: Node) -> bool
    requires first_there { first < length depths.now }
    requires second_there { second < length depths.now }
    ensures { IsTrue result ↔ IsShallower depths.now first second }
{
    let depth = depths[first.index()];
    let other = depths[second.index()];
    if depth == other {
        return first.index() < second.index();
    }
    depth < other
}

/// All nodes, in the order of making.
fn all_nodes(alloc: Global, graph: &EGraph, depths: &[u64]) -> Result<Vec<Node>, AllocError>
    ensures led { IfOk result (λ nodes. AreLed graph.now depths.now nodes.items 0) }
    ensures graph { IsGraph graph.now }
{
    let mut nodes = Vec::new(alloc);
    'nodes: for index in 0..graph.count() {
        nodes.push(Node::new(index))?;
    }
    Ok(nodes)
}

/// Lets the node lead its class where it is shallower than the one that does.
fn lead(graph: &EGraph, depths: &[u64], node: Node, leaders: &mut Vec<Node>)
    requires there { node < length graph.now.nodes }
    requires depths { length depths.now ≡ length graph.now.nodes }
    requires led { AreLed graph.now depths.now leaders.old.items node }
    ensures { AreLed graph.now depths.now leaders.new.items (node + 1) }
{
    let class = graph.class_number(node).index();
    let leader = leaders[class];
    if is_shallower(depths, node, leader) {
        leaders[class] = node;
    }
}

/// At the number of each class the one of its nodes that stands for it.
fn leading_nodes(alloc: Global, graph: &EGraph, depths: &[u64]) -> Result<Vec<Node>, AllocError>
    requires { length depths.now ≡ length graph.now.nodes }
    ensures led { IfOk result
        (λ leaders. AreLed graph.now depths.now leaders.items (length graph.now.nodes)) }
    ensures graph { IsGraph graph.now }
{
    let mut leaders = all_nodes(alloc, graph, depths)?;
    'nodes: for index in 0..graph.count() {
        lead(graph, depths, Node::new(index), &mut leaders);
    }
    Ok(leaders)
}

/// For each node the one that stands for its class: of its nodes that of least depth, the first
/// made among these. It fails only where memory is wanting.
pub fn standing_nodes(
    alloc: Global,
    graph: &EGraph,
    depths: &[u64],
) -> Result<Vec<Node>, AllocError>
    requires { length depths.now ≡ length graph.now.nodes }
    ensures stand { IfOk result (λ standing. StandFor graph.now depths.now standing.items) }
    ensures graph { IsGraph graph.now }
{
    let leaders = leading_nodes(alloc, graph, depths)?;
    let mut standing = Vec::new(alloc);
    'nodes: for index in 0..graph.count() {
        let class = graph.class_number(Node::new(index)).index();
        standing.push(leaders[class])?;
    }
    Ok(standing)
}
