//! What the atoms of entries say.

ghost use Rattle.std.specs.Prelude.{◌≡◌, ◌<◌, Some, None, IfOk, IfSome, List};
ghost use Rattle.std.specs.Prelude.{map, slice_get, true};
ghost use Rattle.std.specs.List.{All};
ghost use Rattle.esc_term.specs.declared.term.Term.{Term};
ghost use Rattle.esc_term.specs.declared.formula.Formula.{Formula};
ghost use Rattle.esc_term.specs.declared.formula.Formula.TheVariants as formula;
ghost use Rattle.esc_term.specs.declared.formula.Formula.TheViews.{out-Formula};
ghost use Rattle.esc_egraph.specs.Graph.{Graph};
ghost use Rattle.esc_sharing.specs.Nodes.{node_count, node_term};
ghost use Rattle.esc_book.specs.Atom.{IsAtomOf, IsGroupOf, is_atom_form};
ghost use Rattle.esc_book.specs.Book.{HasNodes, IsPage, form_at, heads_of, told_kind};
ghost use Rattle.esc_book.specs.ReadingInside.{IsAtomEntry, IsAtomKind};

use crate::atom::Atom;
use crate::entry::{Entry, Kind};
use esc_egraph::{EGraph, Node};
use esc_term::{Formula, Terms};
use std::alloc::{AllocError, Global};

/// The atom of an entry.
pub(crate) fn atom_of(page: &[Entry], index: usize) -> Atom
    ensures { (g : Graph) (f s : Formula) → IsPage g f page.now
        → slice_get (heads_of f) index ≡ Some s → is_atom_form (out-Formula s) ≡ true
        → IsAtomOf g (Some s) result }
{
    let Some(entry) = page.get(index) else {
        return Atom::Quantified;
    };
    match &entry.kind {
        Kind::Equation(a, b) => Atom::Equal(*a, *b),
        Kind::Order(a, b) => Atom::Less(*a, *b),
        Kind::Distinction(_) => Atom::Distinct,
        _ => Atom::Quantified,
    }
}

/// The nodes of an entry that is of a distinction.
pub(crate) fn group_of(page: &[Entry], index: usize) -> Option<&[Node]>
    ensures some { IfSome result (λ nodes. (g : Graph) (f s : Formula) → IsPage g f page.now
        → slice_get (heads_of f) index ≡ Some s → IsGroupOf g (Some s) nodes.now) }
    ensures none { result ≡ None → (g : Graph) (f : Formula) (ts : List Term)
        → IsPage g f page.now → slice_get (heads_of f) index ≡ Some (formula.Distinct ts) → ⊥ }
{
    let Some(entry) = page.get(index) else {
        return None;
    };
    match &entry.kind {
        Kind::Distinction(group) => Some(group.get().nodes()),
        _ => None,
    }
}

/// The atom of an entry, as a formula. It fails only where memory is wanting.
pub(crate) fn formula_of(
    alloc: Global,
    graph: &EGraph,
    page: &[Entry],
    index: usize,
) -> Result<Formula, AllocError>
    requires { IsAtomEntry graph.now page.now index }
    ensures { IfOk result (λ s. (f : Formula) → IsPage graph.now f page.now
        → slice_get (heads_of f) index ≡ Some s) }
{
    let Some(entry) = page.get(index) else {
        unreachable!()
    };
    atom_as_formula(alloc, graph, &entry.kind)
}

/// The atom of a kind, as a formula. It fails only where memory is wanting.
fn atom_as_formula(alloc: Global, graph: &EGraph, kind: &Kind) -> Result<Formula, AllocError>
    requires nodes { HasNodes graph.now kind.now }
    requires atom { IsAtomKind kind.now }
    ensures { IfOk result (λ s. (t : Formula)
        → told_kind graph.now kind.now ≡ form_at (out-Formula t) → s ≡ t) }
{
    match kind {
        Kind::Equation(a, b) => equation_of(graph, *a, *b),
        Kind::Order(a, b) => {
            let left = graph.term(*a)?;
            Ok(Formula::Less(left, graph.term(*b)?))
        }
        Kind::Distinction(group) => {
            Ok(Formula::Distinct(terms_of(alloc, graph, group.get().nodes())?))
        }
        Kind::Quantified(formula) => formula.get().copy(alloc),
        _ => unreachable!(),
    }
}

/// The equation of the terms of two nodes.
pub(crate) fn equation_of(graph: &EGraph, a: Node, b: Node) -> Result<Formula, AllocError>
    requires left { a < node_count graph.now }
    requires right { b < node_count graph.now }
    ensures { IfOk result (λ s. s ≡ formula.Eq (node_term graph.now a) (node_term graph.now b)) }
{
    let left = graph.term(a)?;
    Ok(Formula::Eq(left, graph.term(b)?))
}

/// The terms of nodes.
fn terms_of(alloc: Global, graph: &EGraph, nodes: &[Node]) -> Result<Terms, AllocError>
    requires { All (λ a. a < node_count graph.now) nodes.now }
    ensures { IfOk result (λ terms. terms ≡ map (node_term graph.now) nodes.now) }
{
    let mut terms = Terms::new(alloc);
    'nodes: for node in nodes {
        terms.push(graph.term(*node)?)?;
    }
    Ok(terms)
}
