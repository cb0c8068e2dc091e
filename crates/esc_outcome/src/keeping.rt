//! What is kept of a stop.

ghost use Rattle.std.specs.Prelude.{◌≡◌, ◌<◌, map, IfOk};
ghost use Rattle.std.specs.List.{All};
ghost use Rattle.esc_simplex.specs.View.{numbers_in};
ghost use Rattle.esc_sharing.specs.Nodes.{node_count, node_term};
ghost use Rattle.esc_sharing.specs.Numbers.{AreNumbersOf};
ghost use Rattle.esc_sharing.specs.Shared.{AreToldIn};
ghost use Rattle.esc_outcome.specs.JamLaws.{meanings_in, stuck_with};

use crate::counterexample::Literals;
use crate::stuck::{Meaning, Meanings, Stuck, TermPairs};
use esc_egraph::{EGraph, Node};
use esc_sharing::Sharing;
use esc_simplex::{Simplex, Stop};
use esc_term::Copied;
use sqlite_items::Items;
use std::alloc::{AllocError, Global};

/// The stop, with the unknowns and terms of the arithmetic nodes, the literals, and the terms of
/// the pairs that were told. It fails only where memory is wanting.
pub fn stuck_of(
    alloc: Global,
    sharing: &Sharing<Simplex>,
    stop: Stop,
    literals: &Literals,
) -> Result<Stuck, AllocError>
    requires numbers { AreNumbersOf sharing.now.graph (numbers_in sharing.now.theory) }
    requires told { All (AreToldIn sharing.now.graph (numbers_in sharing.now.theory))
        sharing.now.told }
    ensures { IfOk result (λ stuck. stuck ≡ stuck_with sharing.now stop literals.now) }
{
    let unknowns = meanings(alloc, sharing.graph(), sharing.theory())?;
    let told = told_terms(alloc, sharing.graph(), sharing.told().as_slice())?;
    let literals = literals.copied(alloc)?;
    Ok(Stuck {
        jam: stop,
        unknowns,
        literals,
        told,
    })
}

/// The unknown of each bound node, with its term.
fn meanings(alloc: Global, graph: &EGraph, theory: &Simplex) -> Result<Meanings, AllocError>
    requires { AreNumbersOf graph.now (numbers_in theory.now) }
    ensures { IfOk result (λ list. list ≡ meanings_in theory.now) }
{
    let mut meanings = Items::new(alloc);
    'bound: for bound in theory.bound_nodes() {
        let term = graph.term(bound.0)?;
        meanings.push(Meaning {
            unknown: bound.1,
            term,
        })?;
    }
    Ok(meanings)
}

/// The terms of pairs of nodes.
fn told_terms(
    alloc: Global,
    graph: &EGraph,
    pairs: &[(Node, Node)],
) -> Result<TermPairs, AllocError>
    requires { All (λ p. (p.0 < node_count graph.now) × (p.1 < node_count graph.now)) pairs.now }
    ensures { IfOk result (λ list.
        list ≡ map (λ pair. (node_term graph.now pair.0, node_term graph.now pair.1)) pairs.now) }
{
    let mut terms = Items::new(alloc);
    'pairs: for pair in pairs {
        let first = graph.term(pair.0)?;
        let second = graph.term(pair.1)?;
        terms.push((first, second))?;
    }
    Ok(terms)
}
