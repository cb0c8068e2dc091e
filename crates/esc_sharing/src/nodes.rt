//! Nodes for a term that comes in play.

ghost use Rattle.std.specs.Prelude.{◌≡◌, ◌<◌, ◌++◌, IfOk, IsTrue, OnOk, length};
ghost use Rattle.std.specs.List.{All, flat_map, fold, list_all};
ghost use Rattle.esc_term.specs.Term.{is_ground, subterms, with_once};
ghost use Rattle.esc_trail.specs.Undo.{Notes};
ghost use Rattle.esc_nodes.specs.Nodes.{shape};
ghost use Rattle.esc_nodes.specs.Terms.{built};
ghost use Rattle.esc_egraph.specs.Congruence.{IsMet};
ghost use Rattle.esc_egraph.specs.Graph.{IsGraph};
ghost use Rattle.esc_egraph.specs.GraphUndo.{graph_undo};
ghost use Rattle.esc_node_terms.specs.Nodes.{AreNodesOf};
ghost use Rattle.esc_sharing.specs.AddingInside.{Gathers, IsGrown, is_sum, named, named_nodes};
ghost use Rattle.esc_sharing.specs.Calls.{IsNodeOf};
ghost use Rattle.esc_sharing.specs.Nodes.{node_term, terms_in};

use esc_egraph::{CarriesNodes, EGraph, Node, Top};
use esc_term::{Head, Term};
use esc_trail::Trail;
use std::alloc::{AllocError, Global};

/// The node of a term, which is made with those of its subterms where it was not there. The nodes
/// that become arithmetic come behind the numbers.
#[cycle(make_term)]
#[tactic(auto, using(esc_node_terms::proofs::Walking::brought))]
pub(crate) fn make_term<R: CarriesNodes>(
    graph: &mut EGraph,
    term: &Term,
    numbers: &mut Vec<Node>,
    alloc: Global,
    trail: &mut Trail<R>,
) -> Result<Node, AllocError>
    requires met { IsMet graph.old }
    requires ground { IsTrue (is_ground term.now) }
    ensures grown { OnOk result (IsGrown graph.old graph.new) }
    ensures terms { OnOk result (terms_in graph.new
        ≡ fold with_once (terms_in graph.old) (subterms term.now)) }
    ensures node { IfOk result (IsNodeOf graph.new term.now) }
    ensures numbers { OnOk result (Gathers graph.new.nodes numbers.old.items numbers.new.items
        (flat_map named (subterms term.now))) }
    ensures undo { Notes graph_undo R.carried_node trail.old.records trail.new.records graph.old
        graph.new }
{
    match term {
        Term::Num(n) => {
            let node = make_node(graph, Top::Num(*n), &[], trail)?;
            numbers.push(node)?;
            Ok(node)
        }
        Term::Var(_) => unreachable!(),
        Term::App(head, args) => {
            let nodes = make_terms(graph, args.as_slice(), numbers, alloc, trail)?;
            let node = make_node(graph, Top::App(*head), nodes.as_slice(), trail)?;
            gather(numbers, *head, nodes.as_slice(), node)?;
            Ok(node)
        }
    }
}

/// The nodes of terms in order, which are made in the same way.
#[cycle(make_term)]
fn make_terms<R: CarriesNodes>(
    graph: &mut EGraph,
    terms: &[Term],
    numbers: &mut Vec<Node>,
    alloc: Global,
    trail: &mut Trail<R>,
) -> Result<Vec<Node>, AllocError>
    requires met { IsMet graph.old }
    requires ground { IsTrue (list_all is_ground terms.now) }
    ensures grown { OnOk result (IsGrown graph.old graph.new) }
    ensures terms { OnOk result (terms_in graph.new
        ≡ fold with_once (terms_in graph.old) (flat_map subterms terms.now)) }
    ensures nodes { IfOk result (λ nodes. AreNodesOf graph.new.nodes nodes.items terms.now) }
    ensures numbers { OnOk result (Gathers graph.new.nodes numbers.old.items numbers.new.items
        (flat_map named (flat_map subterms terms.now))) }
    ensures undo { Notes graph_undo R.carried_node trail.old.records trail.new.records graph.old
        graph.new }
{
    let _ = graph.count();
    let mut nodes = Vec::new(alloc);
    'terms: for term in terms {
        let node = make_term(graph, term, numbers, alloc, trail)?;
        nodes.push(node)?;
    }
    Ok(nodes)
}

/// The node with this top and these arguments, which is made where it was not there.
fn make_node<R: CarriesNodes>(
    graph: &mut EGraph,
    top: Top,
    args: &[Node],
    trail: &mut Trail<R>,
) -> Result<Node, AllocError>
    requires met { IsMet graph.old }
    requires args_are_there { All (λ a. a < length graph.old.nodes) args.now }
    ensures grown { OnOk result (IsGrown graph.old graph.new) }
    ensures terms { OnOk result (terms_in graph.new ≡ with_once (terms_in graph.old)
        (built (node_term graph.old) (shape top args.now).top (shape top args.now).args)) }
    ensures node { IfOk result (IsNodeOf graph.new
        (built (node_term graph.old) (shape top args.now).top (shape top args.now).args)) }
    ensures undo { Notes graph_undo R.carried_node trail.old.records trail.new.records graph.old
        graph.new }
{
    let _ = graph.count();
    let node = graph.node(top, args, trail)?;
    let _ = graph.count();
    Ok(node)
}

/// A sum, a difference or a product becomes arithmetic behind its arguments.
fn gather(numbers: &mut Vec<Node>, head: Head, args: &[Node], node: Node) -> Result<(), AllocError>
    ensures { OnOk result (numbers.new.items
        ≡ numbers.old.items ++ named_nodes head args.now node) }
{
    match head {
        Head::Name(_) | Head::Skolem(_, _) => Ok(()),
        Head::Add | Head::Sub | Head::Mul => {
            numbers.extend_from_slice(args)?;
            numbers.push(node)?;
            Ok(())
        }
    }
}
