//! Writes to maps, and the places at which maps are read.

ghost use Rattle.std.specs.Prelude.{◌≡◌, ℕ, ◌<◌, ◌++◌, List, length, map, All, IfOk, OnOk};
ghost use Rattle.esc_egraph.specs.Congruence.{IsCongruence};
ghost use Rattle.esc_egraph.specs.Graph.{IsGraph, number_of};
ghost use Rattle.esc_maps.specs.Chosen.{StandFor};
ghost use Rattle.esc_maps.specs.MapMatches.{AreMapMatches};
ghost use Rattle.esc_maps.specs.Maps.{IsWrite};
ghost use Rattle.esc_maps.specs.ReadsInside.{AreReadsOf, Rises};

use crate::reads::{places_of, reads};
use crate::writes::writes;
use esc_egraph::{EGraph, Node};
use sqlite_items::Items;
use std::alloc::{AllocError, Global};

/// Where a fact about maps applies.
#[derive(Clone, Copy)]
pub enum MapMatch {
    /// A write to a map, which stands for all that are alike.
    Write(Node),
    /// The same, and the node that stands for the class of a place at which it, or what it writes
    /// to, is read.
    Read(Node, Node),
}

pub type MapMatches = Items<MapMatch>;

/// Adds the write with each of these places.
fn add_reads(write: Node, places: &[usize], found: &mut MapMatches) -> Result<(), AllocError>
    ensures { OnOk result (found.new ≡ found.old ++ map (MapMatch.Read write) places.now) }
{
    'places: for place in places {
        found.push(MapMatch::Read(write, Node::new(*place)))?;
    }
    Ok(())
}

/// The writes with the places at which they or what they write to are read.
fn reads_of(
    alloc: Global,
    graph: &EGraph,
    standing: &[Node],
    writes: &[Node],
) -> Result<MapMatches, AllocError>
    requires graph { IsGraph graph.now }
    requires closed { IsCongruence graph.now.nodes (number_of graph.now) }
    requires standing { length standing.now ≡ length graph.now.nodes }
    requires writes { All (λ w. (w < length graph.now.nodes) × IsWrite graph.now w) writes.now }
    ensures { (depths : List ℕ) → StandFor graph.now depths standing.now → Rises writes.now
        → IfOk result (λ found. AreReadsOf graph.now depths writes.now found) }
{
    let reads = reads(alloc, graph, standing)?;
    let mut found = Items::new(alloc);
    'writes: for write in writes {
        let places = places_of(alloc, graph, &reads, *write)?;
        add_reads(*write, places.as_slice(), &mut found)?;
    }
    Ok(found)
}

/// Each of the writes alone.
fn alone(alloc: Global, writes: &[Node]) -> Result<MapMatches, AllocError>
    ensures { IfOk result (λ found. found ≡ map MapMatch.Write writes.now) }
{
    let mut found = Items::new(alloc);
    'writes: for write in writes {
        found.push(MapMatch::Write(*write))?;
    }
    Ok(found)
}

/// The writes, and then the writes with the places at which they or what they write to are read,
/// each once up to congruence, in the order of the nodes. It fails only where memory is wanting.
pub fn map_facts(
    alloc: Global,
    graph: &EGraph,
    depths: &[u64],
    standing: &[Node],
) -> Result<MapMatches, AllocError>
    requires depths { length depths.now ≡ length graph.now.nodes }
    requires standing { StandFor graph.now depths.now standing.now }
    requires closed { IsCongruence graph.now.nodes (number_of graph.now) }
    ensures { IfOk result (λ found. AreMapMatches graph.now depths.now found) }
{
    let writes = writes(alloc, graph, depths)?;
    let reads = reads_of(alloc, graph, standing, writes.as_slice())?;
    let mut found = alone(alloc, writes.as_slice())?;
    found.append(reads)?;
    Ok(found)
}
