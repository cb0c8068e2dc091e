//! Writes to maps.

ghost use Rattle.std.specs.Prelude.{◌≡◌, ◌+◌, ◌<◌, ◌↔◌, length, All, Any, IfOk, IsTrue};
ghost use Rattle.esc_egraph.specs.Congruence.{AllSame, IsCongruence};
ghost use Rattle.esc_egraph.specs.Graph.{IsGraph, number_of};
ghost use Rattle.esc_maps.specs.Chosen.{IsShallower};
ghost use Rattle.esc_maps.specs.Maps.{AreAlikeWrites, IsWrite, StandsForWrites};
ghost use Rattle.esc_maps.specs.ReadsInside.{AreThose};

use crate::chosen::is_shallower;
use esc_egraph::{EGraph, Node, Top};
use esc_term::{Head, Sym};
use std::alloc::{AllocError, Global};

/// Whether two tops are the same.
pub(crate) fn is_top(left: Top, right: Top) -> bool
    ensures { IsTrue result ↔ (left ≡ right) }
{
    left == right
}

/// Whether the node is a write.
fn is_write(graph: &EGraph, node: Node) -> bool
    requires { node < length graph.now.nodes }
    ensures { IsTrue result ↔ IsWrite graph.now node }
{
    if !is_top(graph.top(node), Top::App(Head::Name(Sym::STORE))) {
        return false;
    }
    graph.args(node).len() == 3
}

/// Whether the nodes stand in the same classes, place by place.
fn are_congruent(graph: &EGraph, lefts: &[Node], rights: &[Node]) -> bool
    requires lefts_there { All (λ n. n < length graph.now.nodes) lefts.now }
    requires rights_there { All (λ n. n < length graph.now.nodes) rights.now }
    ensures { IsTrue result ↔ AllSame (number_of graph.now) lefts.now rights.now }
{
    if lefts.len() != rights.len() {
        return false;
    }
    'places: for (place, left) in lefts.iter().enumerate() {
        if !graph.same(*left, rights[place]) {
            return false;
        }
    }
    true
}

/// Whether two writes have map, place and value in the same classes.
fn are_alike(graph: &EGraph, first: Node, second: Node) -> bool
    requires graph { IsGraph graph.now }
    requires first_there { first < length graph.now.nodes }
    requires second_there { second < length graph.now.nodes }
    ensures { IsTrue result ↔ AreAlikeWrites graph.now first second }
{
    if !is_top(graph.top(first), graph.top(second)) {
        return false;
    }
    are_congruent(graph, graph.args(first), graph.args(second))
}

/// Whether one of the nodes is alike and shallower.
fn has_shallower(graph: &EGraph, depths: &[u64], nodes: &[Node], write: Node) -> bool
    requires graph { IsGraph graph.now }
    requires depths { length depths.now ≡ length graph.now.nodes }
    requires nodes { All (λ n. n < length graph.now.nodes) nodes.now }
    requires write { write < length graph.now.nodes }
    ensures { IsTrue result ↔ Any (λ n. AreAlikeWrites graph.now n write
        × IsShallower depths.now n write) nodes.now }
{
    'nodes: for node in nodes {
        if are_alike(graph, *node, write) && is_shallower(depths, *node, write) {
            return true;
        }
    }
    false
}

/// Whether the node is a write that stands for all that are alike, which are of its class.
fn stands_for_writes(graph: &EGraph, depths: &[u64], node: Node) -> bool
    requires graph { IsGraph graph.now }
    requires depths { length depths.now ≡ length graph.now.nodes }
    requires closed { IsCongruence graph.now.nodes (number_of graph.now) }
    requires there { node < length graph.now.nodes }
    ensures { IsTrue result ↔ StandsForWrites graph.now depths.now node }
{
    if !is_write(graph, node) {
        return false;
    }
    !has_shallower(graph, depths, graph.class_of(node), node)
}

/// The writes that stand for all that are alike, in the order of making.
pub(crate) fn writes(alloc: Global, graph: &EGraph, depths: &[u64]) -> Result<Vec<Node>, AllocError>
    requires depths { length depths.now ≡ length graph.now.nodes }
    requires closed { IsCongruence graph.now.nodes (number_of graph.now) }
    ensures those { IfOk result
        (λ nodes. AreThose (StandsForWrites graph.now depths.now) nodes.items) }
    ensures graph { IsGraph graph.now }
{
    let mut nodes = Vec::new(alloc);
    'nodes: for index in 0..graph.count() {
        let node = Node::new(index);
        if stands_for_writes(graph, depths, node) {
            nodes.push(node)?;
        }
    }
    Ok(nodes)
}
