//! The draws of facts, and how deep they lie.

ghost use Rattle.std.specs.Prelude.{◌≡◌, ℕ, ◌<◌, List, Option, All, IfOk, length, map, max};
ghost use Rattle.std.specs.Prelude.{slice_index};
ghost use Rattle.std.specs.List.{fold};
ghost use Rattle.esc_nodes.specs.Terms.{term_of};
ghost use Rattle.esc_egraph.specs.Graph.{Graph, IsGraph};
ghost use Rattle.esc_fact.specs.Depth.{deep, depth_behind};
ghost use Rattle.esc_fact.specs.Fact.{IsFact, store};
ghost use Rattle.esc_fact.specs.Legal.{IsClosedBase};
ghost use Rattle.esc_standing.specs.Formulas.{AreBeside};
ghost use Rattle.esc_standing.specs.DrawsInside.{AreSmall, HasNode, HasNodes, IsBehind};
ghost use Rattle.esc_standing.specs.DrawsInside.{IsDrawOf, IsFormulaKept, IsThere, IsThereOr};
ghost use Rattle.esc_standing.specs.DrawsInside.{depth_drawn};

use crate::formulas::{KeptFormulas, place_with};
use esc_egraph::{EGraph, Node};
use esc_fact::{Base, Fact};
use esc_maps::MapMatch;
use esc_match::NodeList;
use esc_rounds::{Draw, Kept};
use esc_term::{Head, Sym, Term, with_room};
use sqlite_items::Items;
use std::alloc::{AllocError, Global};

/// The map with a new value at a place.
fn stored(alloc: Global, map: &Term, place: &Term, value: &Term) -> Result<Term, AllocError>
    ensures { IfOk result (λ t. t ≡ store map.now place.now value.now) }
{
    let mut args = with_room(alloc, 3)?;
    args.push(map.copy(alloc)?)?;
    args.push(place.copy(alloc)?)?;
    args.push(value.copy(alloc)?)?;
    Ok(Term::App(Head::Name(Sym::STORE), args))
}

/// The node of a term that has one.
fn node_of(graph: &EGraph, term: &Term) -> Node
    requires { HasNode graph.now term.now }
    ensures there { result < length graph.now.nodes }
    ensures is { term_of graph.now.nodes result ≡ term.now }
{
    let Some(node) = graph.node_of(term) else {
        unreachable!()
    };
    node
}

/// The nodes of terms that have nodes.
fn nodes_of(alloc: Global, graph: &EGraph, terms: &[Term]) -> Result<NodeList, AllocError>
    requires { All (HasNode graph.now) terms.now }
    ensures there { IfOk result (λ nodes. All (λ n. n < length graph.now.nodes) nodes) }
    ensures are { IfOk result (λ nodes. map (term_of graph.now.nodes) nodes ≡ terms.now) }
{
    let mut nodes = Items::new(alloc);
    'terms: for term in terms {
        nodes.push(node_of(graph, term))?;
    }
    Ok(nodes)
}

/// The node of a map with a new value at a place, which has one.
fn write_of(
    alloc: Global,
    graph: &EGraph,
    map: &Term,
    place: &Term,
    value: &Term,
) -> Result<Node, AllocError>
    requires { HasNode graph.now (store map.now place.now value.now) }
    ensures there { IfOk result (λ n. n < length graph.now.nodes) }
    ensures is { IfOk result
        (λ n. term_of graph.now.nodes n ≡ store map.now place.now value.now) }
{
    let term = stored(alloc, map, place, value)?;
    Ok(node_of(graph, &term))
}

/// What a fact is drawn from, where it is not one of the base. It fails only where memory is
/// wanting.
pub(crate) fn draw_of(
    alloc: Global,
    base: &Base,
    graph: &EGraph,
    formulas: &KeptFormulas,
    fact: &Fact,
) -> Result<Option<Draw>, AllocError>
    requires closed { IsClosedBase base.now }
    requires graph { IsGraph graph.now }
    requires beside { AreBeside base.now formulas.now.kept formulas.now.closed }
    requires fact { IsFact base.now fact.now }
    requires nodes { HasNodes graph.now fact.now }
    requires kept { IsFormulaKept base.now formulas.now.kept fact.now }
    ensures { IfOk result (IsDrawOf base.now graph.now formulas.now.kept fact.now) }
{
    match fact {
        Fact::Given(_) | Fact::NegGoal => Ok(None),
        Fact::Inst {
            number,
            outer,
            terms,
        } => {
            let place = place_with(alloc, base, formulas, *number, outer)?;
            let nodes = nodes_of(alloc, graph, terms.as_slice())?;
            Ok(Some(Draw::Instance(place, nodes)))
        }
        Fact::Skolem { number, outer } => {
            let place = place_with(alloc, base, formulas, *number, outer)?;
            Ok(Some(Draw::Witness(place)))
        }
        Fact::Map1(map, place, value) => {
            let write = write_of(alloc, graph, map, place, value)?;
            Ok(Some(Draw::Map(MapMatch::Write(write))))
        }
        Fact::Map2(map, place, value, other) => {
            let write = write_of(alloc, graph, map, place, value)?;
            Ok(Some(Draw::Map(MapMatch::Read(write, node_of(graph, other)))))
        }
    }
}

/// The greatest of a depth and those of some nodes.
fn deepest(depths: &[u64], nodes: &[Node], least: u64) -> u64
    requires { All (λ n. n < length depths.now) nodes.now }
    ensures { result ≡ fold max least (map (slice_index depths.now) nodes.now) }
{
    let mut depth = least;
    'nodes: for node in nodes {
        depth = depth.max(depths[node.index()]);
    }
    depth
}

/// How deep the fact of a draw lies.
fn depth_drawn(depths: &[u64], formulas: &[Kept], draw: &Draw) -> u64
    requires there { IsThere depths.now formulas.now draw.now }
    requires small { AreSmall depths.now formulas.now }
    ensures { result ≡ depth_drawn depths.now formulas.now draw.now }
{
    match draw {
        Draw::Witness(formula) => formulas[*formula as usize].depth,
        Draw::Map(MapMatch::Write(write)) => 1 + depths[write.index()],
        Draw::Map(MapMatch::Read(write, place)) => {
            let depth = depths[write.index()];
            1 + depth.max(depths[place.index()])
        }
        Draw::Instance(formula, nodes) => {
            let least = formulas[*formula as usize].depth;
            1 + deepest(depths, nodes.as_slice(), least)
        }
    }
}

/// How deep a fact lies that is drawn in this way, or is one of the base.
pub(crate) fn depth_of(depths: &[u64], formulas: &[Kept], draw: &Option<Draw>) -> u64
    requires there { IsThereOr depths.now formulas.now draw.now }
    requires small { AreSmall depths.now formulas.now }
    ensures { (base : Base) (g : Graph) (facts : List Fact) (unset : ℕ) (fact : Fact)
        → IsBehind base g facts unset depths.now formulas.now fact draw.now
        → result ≡ depth_behind base (deep base facts) fact }
{
    match draw {
        None => 0,
        Some(draw) => depth_drawn(depths, formulas, draw),
    }
}
