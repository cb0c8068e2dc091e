//! The facts of draws.

ghost use Rattle.std.specs.Prelude.{◌≡◌, ◌<◌, length, map, IfOk};
ghost use Rattle.std.specs.List.{All};
ghost use Rattle.esc_nodes.specs.Nodes.{shape_at};
ghost use Rattle.esc_nodes.specs.Terms.{term_of};
ghost use Rattle.esc_egraph.specs.Graph.{IsGraph};
ghost use Rattle.esc_maps.specs.Maps.{IsWrite};
ghost use Rattle.esc_rounds.specs.Facts.{argument, fact_of};
ghost use Rattle.esc_rounds.specs.Standing.{IsDrawable};
ghost use Rattle.esc_fact.specs.declared.fact.Fact.TheVariants as made;

use crate::draw::Draw;
use crate::kept::Kept;
use esc_egraph::{EGraph, Node};
use esc_fact::Fact;
use esc_maps::MapMatch;
use esc_term::{Copied, Term, Terms};
use sqlite_items::Items;
use std::alloc::{AllocError, Global};

/// The terms of the nodes.
fn terms_of(alloc: Global, graph: &EGraph, nodes: &[Node]) -> Result<Terms, AllocError>
    requires { All (λ n. n < length graph.now.nodes) nodes.now }
    ensures { IfOk result (λ terms. terms ≡ map (term_of graph.now.nodes) nodes.now) }
{
    let mut terms = Items::new(alloc);
    'nodes: for node in nodes {
        terms.push(graph.term(*node)?)?;
    }
    Ok(terms)
}

/// The term of the argument at this place of the node.
fn argument(graph: &EGraph, node: Node, place: usize) -> Result<Term, AllocError>
    requires graph { IsGraph graph.now }
    requires there { node < length graph.now.nodes }
    requires place { place < length (shape_at graph.now.nodes node).args }
    ensures { IfOk result (λ term. term ≡ argument graph.now node place) }
{
    graph.term(graph.args(node)[place])
}

/// What the write has at its place.
fn written(graph: &EGraph, write: Node) -> Result<Fact, AllocError>
    requires graph { IsGraph graph.now }
    requires there { write < length graph.now.nodes }
    requires is { IsWrite graph.now write }
    ensures { IfOk result (λ fact. fact ≡ made.Map1 (argument graph.now write 0)
        (argument graph.now write 1) (argument graph.now write 2)) }
{
    let map = argument(graph, write, 0)?;
    let place = argument(graph, write, 1)?;
    Ok(Fact::Map1(map, place, argument(graph, write, 2)?))
}

/// What the write has at another place.
fn kept(graph: &EGraph, write: Node, other: Node) -> Result<Fact, AllocError>
    requires graph { IsGraph graph.now }
    requires there { write < length graph.now.nodes }
    requires other_there { other < length graph.now.nodes }
    requires is { IsWrite graph.now write }
    ensures { IfOk result (λ fact. fact ≡ made.Map2 (argument graph.now write 0)
        (argument graph.now write 1) (argument graph.now write 2)
        (term_of graph.now.nodes other)) }
{
    let map = argument(graph, write, 0)?;
    let place = argument(graph, write, 1)?;
    let value = argument(graph, write, 2)?;
    Ok(Fact::Map2(map, place, value, graph.term(other)?))
}

/// The fact that is drawn, where these are the quantified formulas. It fails only where memory is
/// wanting.
pub fn fact_of(
    alloc: Global,
    graph: &EGraph,
    formulas: &[Kept],
    draw: &Draw,
) -> Result<Fact, AllocError>
    requires graph { IsGraph graph.now }
    requires drawable { IsDrawable graph.now formulas.now draw.now }
    ensures { IfOk result (λ fact. fact ≡ fact_of graph.now formulas.now draw.now) }
{
    match draw {
        Draw::Witness(formula) => {
            let kept = &formulas[*formula as usize];
            Ok(Fact::Skolem {
                number: kept.number,
                outer: kept.outer.copied(alloc)?,
            })
        }
        Draw::Map(MapMatch::Write(write)) => written(graph, *write),
        Draw::Map(MapMatch::Read(write, other)) => kept(graph, *write, *other),
        Draw::Instance(formula, nodes) => {
            let kept = &formulas[*formula as usize];
            let terms = terms_of(alloc, graph, nodes.as_slice())?;
            Ok(Fact::Inst {
                number: kept.number,
                outer: kept.outer.copied(alloc)?,
                terms,
            })
        }
    }
}
