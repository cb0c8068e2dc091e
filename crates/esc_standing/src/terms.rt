//! The depths of the terms of nodes.

ghost use Rattle.std.specs.Prelude.{◌≡◌, [], ◌∷◌, length, OnOk};
ghost use Rattle.esc_egraph.specs.Graph.{IsGraph};
ghost use Rattle.esc_standing.specs.DepthsInside.{Enters, EntersTerms};

use esc_egraph::EGraph;
use esc_nodes::term_laws;
use esc_term::{Formula, Term, ground_terms};
use sqlite_items::Items;
use std::alloc::{AllocError, Global};

/// Sets the depth of the node of a term, if there is one and it is unset.
fn enter_term(graph: &EGraph, term: &Term, depth: u64, unset: u64, depths: &mut Items<u64>)
    requires graph { IsGraph graph.now }
    requires many { length depths.old ≡ length graph.now.nodes }
    ensures { Enters graph.now.nodes (term.now ∷ []) depth unset depths.old depths.new }
{
    term_laws();
    let Some(node) = graph.node_of(term) else {
        return;
    };
    let place = node.index();
    let before = depths.as_slice()[place];
    if before == unset {
        depths.set(place, depth);
    }
}

/// Sets the depths of the terms of a formula that are unset. It fails only where memory is
/// wanting.
pub(crate) fn enter_terms(
    alloc: Global,
    graph: &EGraph,
    formula: &Formula,
    depth: u64,
    unset: u64,
    depths: &mut Items<u64>,
) -> Result<(), AllocError>
    requires graph { IsGraph graph.now }
    requires many { length depths.old ≡ length graph.now.nodes }
    ensures many { length depths.new ≡ length graph.now.nodes }
    ensures entered { OnOk result
        (EntersTerms graph.now.nodes formula.now depth unset depths.old depths.new) }
{
    term_laws();
    let terms = ground_terms(alloc, formula)?;
    'terms: for term in terms.as_slice() {
        enter_term(graph, term, depth, unset, depths);
    }
    Ok(())
}
