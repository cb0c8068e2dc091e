//! How a table is written.

ghost use Rattle.std.specs.Prelude.{◌≡◌, ◌+◌, ◌<◌, ◌++◌, IfOk, map};
ghost use Rattle.std.specs.List.{All, Contains, flat_map};
ghost use Rattle.esc_term.specs.Formula.{terms_of};
ghost use Rattle.esc_sharing.specs.Nodes.{node_count, node_term, terms_in};
ghost use Rattle.esc_book.specs.Book.{IsPage, heads_of};
ghost use Rattle.esc_book.specs.GroupInside.{pair_count};
ghost use Rattle.esc_book.specs.WritingInside.{IsKindOf, Writes, behind_own, inside_of};

use crate::entry::{Entry, Kind, Page};
use crate::group::{Group, Nodes, further};
use esc_egraph::{EGraph, Node};
use esc_term::{Formula, Term};
use sqlite_items::Boxed;
use std::alloc::{AllocError, Global};

/// The table of a formula. It fails only where memory is wanting, or where a place would be too
/// large a number.
pub(crate) fn page_of(alloc: Global, graph: &EGraph, formula: &Formula) -> Result<Page, AllocError>
    requires terms { All (Contains (terms_in graph.now)) (terms_of formula.now) }
    ensures { IfOk result (IsPage graph.now formula.now) }
{
    let mut page = Page::new(alloc);
    let _ = write(alloc, graph, formula, 0, &mut page)?;
    Ok(page)
}

/// Writes the entries of a formula that stands at a place, and gives the place behind it.
#[cycle(write)]
fn write(
    alloc: Global,
    graph: &EGraph,
    formula: &Formula,
    start: u64,
    page: &mut Page,
) -> Result<u64, AllocError>
    requires terms { All (Contains (terms_in graph.now)) (terms_of formula.now) }
    ensures { IfOk result (Writes graph.now (heads_of formula.now) start page.old page.new) }
{
    let kind = kind_of(alloc, graph, formula)?;
    let inside = further(start, 1)?;
    let index = page.len();
    page.push(Entry {
        begin: start,
        next: 0,
        kind: Kind::Labelled,
    })?;
    let end = write_inside(alloc, graph, formula, inside, page)?;
    let next = page.len();
    page.set(
        index,
        Entry {
            begin: start,
            next,
            kind,
        },
    );
    Ok(end)
}

/// Writes what stands behind a formula in its table.
#[cycle(write)]
fn write_inside(
    alloc: Global,
    graph: &EGraph,
    formula: &Formula,
    inside: u64,
    page: &mut Page,
) -> Result<u64, AllocError>
    requires terms { All (Contains (terms_in graph.now)) (terms_of formula.now) }
    ensures { IfOk result (Writes graph.now (inside_of formula.now)
        (behind_own inside formula.now) page.old page.new) }
{
    match formula {
        Formula::And(parts) | Formula::Or(parts) => {
            write_all(alloc, graph, parts.as_slice(), inside, page)
        }
        Formula::Not(part) | Formula::LabelPos(_, part) | Formula::LabelNeg(_, part) => {
            write(alloc, graph, part.get(), inside, page)
        }
        Formula::Implies(left, right) | Formula::Iff(left, right) => {
            write_two(alloc, graph, left.get(), right.get(), inside, page)
        }
        Formula::Distinct(terms) => behind_pairs(inside, terms.len()),
        Formula::True => Ok(inside),
        Formula::False => Ok(inside),
        Formula::Eq(_, _) => Ok(inside),
        Formula::Less(_, _) => Ok(inside),
        Formula::Forall(_) => Ok(inside),
        Formula::Exists(_) => Ok(inside),
    }
}

/// Writes the entries of two formulas side by side.
#[cycle(write)]
fn write_two(
    alloc: Global,
    graph: &EGraph,
    left: &Formula,
    right: &Formula,
    start: u64,
    page: &mut Page,
) -> Result<u64, AllocError>
    requires left { All (Contains (terms_in graph.now)) (terms_of left.now) }
    requires right { All (Contains (terms_in graph.now)) (terms_of right.now) }
    ensures { IfOk result (Writes graph.now (heads_of left.now ++ heads_of right.now) start
        page.old page.new) }
{
    let middle = write(alloc, graph, left, start, page)?;
    let end = write(alloc, graph, right, middle, page)?;
    Ok(end)
}

/// Writes the entries of formulas side by side.
#[cycle(write)]
fn write_all(
    alloc: Global,
    graph: &EGraph,
    parts: &[Formula],
    start: u64,
    page: &mut Page,
) -> Result<u64, AllocError>
    requires terms { All (λ f. All (Contains (terms_in graph.now)) (terms_of f)) parts.now }
    ensures { IfOk result (Writes graph.now (flat_map heads_of parts.now) start
        page.old page.new) }
{
    let mut end = start;
    'parts: for part in parts {
        end = write(alloc, graph, part, end, page)?;
    }
    Ok(end)
}

/// The place behind the pairs of so many terms.
pub(crate) fn behind_pairs(start: u64, count: usize) -> Result<u64, AllocError>
    ensures { IfOk result (λ end. end ≡ start + pair_count count) }
{
    let mut end = start;
    'terms: for place in 0..count {
        end = further(end, place as u64)?;
    }
    Ok(end)
}

/// What a formula is, but for its parts.
#[tactic(auto, using(crate::proofs::FormKinds::kinds))]
fn kind_of(alloc: Global, graph: &EGraph, formula: &Formula) -> Result<Kind, AllocError>
    requires terms { All (Contains (terms_in graph.now)) (terms_of formula.now) }
    ensures { IfOk result (IsKindOf graph.now formula.now) }
{
    match formula {
        Formula::True => Ok(Kind::Constant(true)),
        Formula::False => Ok(Kind::Constant(false)),
        Formula::And(_) => Ok(Kind::Conjunction),
        Formula::Or(_) => Ok(Kind::Disjunction),
        Formula::Not(_) => Ok(Kind::Negation),
        Formula::Implies(_, _) => Ok(Kind::Implication),
        Formula::Iff(_, _) => Ok(Kind::Equivalence),
        Formula::LabelPos(_, _) => Ok(Kind::Labelled),
        Formula::LabelNeg(_, _) => Ok(Kind::Labelled),
        Formula::Eq(left, right) => {
            Ok(Kind::Equation(node_of(graph, left), node_of(graph, right)))
        }
        Formula::Less(left, right) => Ok(Kind::Order(node_of(graph, left), node_of(graph, right))),
        Formula::Distinct(terms) => {
            let nodes = nodes_of(alloc, graph, terms.as_slice())?;
            let group = Group::new(alloc, nodes)?;
            Ok(Kind::Distinction(Boxed::new(alloc, group)?))
        }
        Formula::Forall(_) | Formula::Exists(_) => {
            let copy = formula.copy(alloc)?;
            Ok(Kind::Quantified(Boxed::new(alloc, copy)?))
        }
    }
}

/// The node of a term that has one.
fn node_of(graph: &EGraph, term: &Term) -> Node
    requires { Contains (terms_in graph.now) term.now }
    ensures there { result < node_count graph.now }
    ensures is { node_term graph.now result ≡ term.now }
{
    match graph.node_of(term) {
        Some(node) => node,
        None => unreachable!(),
    }
}

/// The nodes of terms that have them.
fn nodes_of(alloc: Global, graph: &EGraph, terms: &[Term]) -> Result<Nodes, AllocError>
    requires { All (Contains (terms_in graph.now)) terms.now }
    ensures there { IfOk result (All (λ a. a < node_count graph.now)) }
    ensures are { IfOk result (λ nodes. map (node_term graph.now) nodes ≡ terms.now) }
{
    let mut nodes = Nodes::new(alloc);
    'terms: for term in terms {
        nodes.push(node_of(graph, term))?;
    }
    Ok(nodes)
}
