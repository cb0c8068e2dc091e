//! Reads of maps, by the classes of the maps.

ghost use Rattle.std.specs.Prelude.{◌≡◌, ℕ, ◌+◌, ◌<◌, ◌↔◌, ◌⊎◌, length, IfOk, IsTrue, OnOk};
ghost use Rattle.std.specs.List.{Contains};
ghost use Rattle.esc_egraph.specs.Graph.{IsGraph};
ghost use Rattle.esc_maps.specs.Maps.{IsWrite, read_of};
ghost use Rattle.esc_maps.specs.ReadsInside.{AreReads, AreThose, IsEntered};
ghost use Rattle.esc_nodes.specs.Nodes.{shape_at};

use crate::writes::is_top;
use esc_egraph::{EGraph, Node, Top};
use esc_index::Index;
use esc_term::{Head, Sym};
use std::alloc::{AllocError, Global};

/// Whether the node is the value of a map at a place.
fn is_read(graph: &EGraph, node: Node) -> bool
    requires { node < length graph.now.nodes }
    ensures { IsTrue result ↔ ((m j : ℕ) × (shape_at graph.now.nodes node ≡ read_of m j)) }
{
    if !is_top(graph.top(node), Top::App(Head::Name(Sym::SELECT))) {
        return false;
    }
    graph.args(node).len() == 2
}

/// Enters the node if it is a read: the class of its map, with the node that stands for its place.
fn enter(
    graph: &EGraph,
    standing: &[Node],
    node: Node,
    entries: &mut Index,
) -> Result<(), AllocError>
    requires graph { IsGraph graph.now }
    requires standing { length standing.now ≡ length graph.now.nodes }
    requires there { node < length graph.now.nodes }
    requires entered { AreReads graph.now standing.now node entries.old }
    ensures { OnOk result (AreReads graph.now standing.now (node + 1) entries.new) }
{
    if !is_read(graph, node) {
        return Ok(());
    }
    let args = graph.args(node);
    let class = graph.class_number(args[0]);
    let place = standing[args[1].index()];
    entries.push(class.index(), place)
}

/// For each read the class of its map, with the node that stands for its place.
pub(crate) fn reads(alloc: Global, graph: &EGraph, standing: &[Node]) -> Result<Index, AllocError>
    requires { length standing.now ≡ length graph.now.nodes }
    ensures { IfOk result
        (λ entries. AreReads graph.now standing.now (length graph.now.nodes) entries) }
{
    let mut entries = Index::new(alloc);
    'nodes: for index in 0..graph.count() {
        enter(graph, standing, Node::new(index), &mut entries)?;
    }
    Ok(entries)
}

/// Adds the places at which maps of this class are read.
fn add_places(reads: &Index, class: Node, places: &mut Vec<usize>) -> Result<(), AllocError>
    ensures { OnOk result ((j : ℕ) → Contains places.new.items j
        ↔ (Contains places.old.items j ⊎ Contains reads.now (class, j))) }
{
    let mut end = reads.len();
    'reads: while let Some(place) = reads.last_before(class.index(), end) {
        places.push(reads.node(place).index())?;
        end = place;
    }
    Ok(())
}

/// The places at which the write, or what it writes to, is read, in the order of the nodes that
/// stand for them.
pub(crate) fn places_of(
    alloc: Global,
    graph: &EGraph,
    reads: &Index,
    write: Node,
) -> Result<Vec<usize>, AllocError>
    requires graph { IsGraph graph.now }
    requires there { write < length graph.now.nodes }
    requires is { IsWrite graph.now write }
    ensures { IfOk result (λ places. AreThose (IsEntered graph.now reads.now write)
        places.items) }
{
    let map = graph.args(write)[0];
    let mut places = Vec::new(alloc);
    add_places(reads, graph.class_number(write), &mut places)?;
    add_places(reads, graph.class_number(map), &mut places)?;
    places.sort_unstable();
    places.dedup();
    Ok(places)
}
