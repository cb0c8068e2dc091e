//! Ways of matching, as they grow term by term.

ghost use Rattle.std.specs.Prelude.{◌≡◌, ◌<◌, IfOk, [], ◌∷◌, length, map};
ghost use Rattle.std.specs.List.{All, flat_map};
ghost use Rattle.esc_egraph.specs.Graph.{IsGraph};
ghost use Rattle.esc_match.specs.CandidatesInside.{numbers_below};
ghost use Rattle.esc_match.specs.WaysInside.{grown, grown_anywhere, grown_at, grown_by_all};
ghost use Rattle.esc_match.specs.WaysInside.{grown_by_variable, new_way, trigger_ways};

use crate::candidates::{class_with_top, with_top};
use crate::way::{Binding, Way, class_bound};
use esc_egraph::{EGraph, Node, Top};
use esc_term::{Head, Term};
use sqlite_items::Items;
use std::alloc::{AllocError, Global};

pub(crate) type Ways = Items<Way>;

/// The one way, or none.
fn only(alloc: Global, way: Way) -> Result<Ways, AllocError>
    ensures { IfOk result (λ ways. ways ≡ way ∷ []) }
{
    let mut ways = Items::new(alloc);
    ways.push(way)?;
    Ok(ways)
}

/// The way as it goes on to the node of a variable: the variable's class stays what it is.
fn grow_variable(
    alloc: Global,
    graph: &EGraph,
    variable: u64,
    node: Node,
    way: &Way,
) -> Result<Ways, AllocError>
    requires { node < length graph.now.nodes }
    ensures { IfOk result (λ ways. ways ≡ grown_by_variable graph.now variable node way.now) }
{
    let class = graph.class_number(node);
    match class_bound(way.bound.as_slice(), variable) {
        None => {
            let binding = Binding { variable, class };
            only(alloc, way.visited_with(alloc, binding, node)?)
        }
        Some(bound) => {
            if bound != class {
                return Ok(Items::new(alloc));
            }
            only(alloc, way.visited(alloc, node)?)
        }
    }
}

/// The ways in which a way goes on where the term matches the class of the node.
#[cycle(grow)]
#[tactic(auto, using(crate::proofs::GrownLevels::levels))]
fn grow(
    alloc: Global,
    graph: &EGraph,
    term: &Term,
    node: Node,
    way: &Way,
) -> Result<Ways, AllocError>
    requires graph { IsGraph graph.now }
    requires there { node < length graph.now.nodes }
    ensures { IfOk result (λ ways. ways ≡ grown graph.now term.now node way.now) }
{
    match term {
        Term::Num(value) => {
            let numerals = class_with_top(alloc, graph, Top::Num(*value), node)?;
            if numerals.is_empty() {
                return Ok(Items::new(alloc));
            }
            only(alloc, way.visited(alloc, node)?)
        }
        Term::Var(variable) => grow_variable(alloc, graph, *variable, node, way),
        Term::App(head, parts) => {
            let nodes = class_with_top(alloc, graph, Top::App(*head), node)?;
            grow_at(alloc, graph, parts.as_slice(), nodes.as_slice(), way)
        }
    }
}

/// The same at each of the candidates, whose arguments match the parts.
#[cycle(grow)]
fn grow_at(
    alloc: Global,
    graph: &EGraph,
    parts: &[Term],
    candidates: &[Node],
    way: &Way,
) -> Result<Ways, AllocError>
    requires graph { IsGraph graph.now }
    requires there { All (λ n. n < length graph.now.nodes) candidates.now }
    ensures { IfOk result (λ ways. ways
        ≡ grown_at graph.now (map (grown graph.now) parts.now) candidates.now way.now) }
{
    let mut ways = Items::new(alloc);
    'candidates: for node in candidates {
        let start = only(alloc, way.visited(alloc, *node)?)?;
        let more = grow_all(alloc, graph, parts, graph.args(*node), start)?;
        ways.append(more)?;
    }
    Ok(ways)
}

/// The ways in which ways go on where the terms match the classes of the nodes, place by place.
#[cycle(grow)]
#[tactic(auto, using(crate::proofs::Walks::places_walk))]
fn grow_all(
    alloc: Global,
    graph: &EGraph,
    terms: &[Term],
    nodes: &[Node],
    start: Ways,
) -> Result<Ways, AllocError>
    requires graph { IsGraph graph.now }
    requires there { All (λ n. n < length graph.now.nodes) nodes.now }
    ensures { IfOk result (λ ways. ways ≡ grown_by_all graph.now terms.now nodes.now start) }
{
    if terms.len() != nodes.len() {
        return Ok(Items::new(alloc));
    }
    let mut ways = start;
    'places: for (place, term) in terms.iter().enumerate() {
        ways = grow_each(alloc, graph, term, nodes[place], ways.as_slice())?;
    }
    Ok(ways)
}

/// The ways in which one of the ways goes on where the term matches the class of the node.
#[cycle(grow)]
fn grow_each(
    alloc: Global,
    graph: &EGraph,
    term: &Term,
    node: Node,
    ways: &[Way],
) -> Result<Ways, AllocError>
    requires graph { IsGraph graph.now }
    requires there { node < length graph.now.nodes }
    ensures { IfOk result (λ more. more ≡ flat_map (grown graph.now term.now node) ways.now) }
{
    let mut grown = Items::new(alloc);
    'ways: for way in ways {
        grown.append(grow(alloc, graph, term, node, way)?)?;
    }
    Ok(grown)
}

/// The ways in which one of the ways goes on at one of the candidates, whose arguments match the
/// parts.
fn grow_each_at(
    alloc: Global,
    graph: &EGraph,
    parts: &[Term],
    candidates: &[Node],
    ways: &[Way],
) -> Result<Ways, AllocError>
    requires graph { IsGraph graph.now }
    requires there { All (λ n. n < length graph.now.nodes) candidates.now }
    ensures { IfOk result (λ more. more
        ≡ flat_map (grown_at graph.now (map (grown graph.now) parts.now) candidates.now) ways.now) }
{
    let mut grown = Items::new(alloc);
    'ways: for way in ways {
        grown.append(grow_at(alloc, graph, parts, candidates, way)?)?;
    }
    Ok(grown)
}

/// The ways in which one of the ways goes on where the term is an application that matches any of
/// the nodes, which are all. A variable or a numeral alone matches none.
#[tactic(auto, using(crate::proofs::GrownLevels::anywhere))]
fn grow_anywhere(
    alloc: Global,
    graph: &EGraph,
    nodes: &[Node],
    term: &Term,
    ways: &[Way],
) -> Result<Ways, AllocError>
    requires graph { IsGraph graph.now }
    requires all { nodes.now ≡ numbers_below (length graph.now.nodes) }
    requires there { All (λ n. n < length graph.now.nodes) nodes.now }
    ensures { IfOk result (λ more. more ≡ grown_anywhere graph.now term.now ways.now) }
{
    match term {
        Term::Num(_) | Term::Var(_) => Ok(Items::new(alloc)),
        Term::App(head, parts) => {
            let candidates = with_top(alloc, graph, Top::App(*head), nodes)?;
            grow_each_at(alloc, graph, parts.as_slice(), candidates.as_slice(), ways)
        }
    }
}

/// The ways in which the terms of a trigger match the nodes, which are all.
#[tactic(auto, using(crate::proofs::Walks::trigger_walk))]
pub(crate) fn ways_of(
    alloc: Global,
    graph: &EGraph,
    nodes: &[Node],
    trigger: &[Term],
) -> Result<Ways, AllocError>
    requires graph { IsGraph graph.now }
    requires all { nodes.now ≡ numbers_below (length graph.now.nodes) }
    requires there { All (λ n. n < length graph.now.nodes) nodes.now }
    ensures { IfOk result (λ ways. ways ≡ trigger_ways graph.now trigger.now (new_way ∷ [])) }
{
    let mut ways = only(alloc, Way::new(alloc))?;
    'terms: for term in trigger {
        ways = grow_anywhere(alloc, graph, nodes, term, ways.as_slice())?;
    }
    Ok(ways)
}
