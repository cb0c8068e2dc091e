//! Searches through one group, by its nodes or by those of a class, whichever are fewer.

ghost use Rattle.std.specs.Prelude.{◌≡◌, ℕ, ◌<◌, length, All, Any, IsTrue, ◌↔◌, IfSome, IfNone};
ghost use Rattle.std.specs.Prelude.{slice_index};
ghost use Rattle.std.specs.List.{Contains};
ghost use Rattle.esc_egraph.specs.Graph.{number_of};
ghost use Rattle.esc_distinct.specs.Groups.{HoldsElsewhere, HoldsApart, HoldsTwice};
ghost use Rattle.esc_distinct.specs.PassesInside.{HoldsAt, StandsElsewhere};

use crate::group::Group;
use esc_egraph::{EGraph, Node};

/// Whether two different places hold nodes of the classes of `a` and `b`.
pub(crate) fn holds_apart(graph: &EGraph, group: &Group, a: Node, b: Node) -> bool
    requires a_is_there { a < length graph.now.nodes }
    requires b_is_there { b < length graph.now.nodes }
    requires members { All (λ n. n < length graph.now.nodes) group.now }
    ensures { IsTrue result ↔ HoldsApart (number_of graph.now) a b group.now }
{
    match find_place(graph, group, a) {
        Some(place) => holds_elsewhere(graph, group, place, b),
        None => false,
    }
}

/// Whether two different places hold nodes of one class.
pub(crate) fn holds_twice(graph: &EGraph, group: &Group) -> bool
    requires members { All (λ n. n < length graph.now.nodes) group.now }
    ensures { IsTrue result ↔ HoldsTwice (number_of graph.now) group.now }
{
    let nodes = group.nodes();
    'places: for (place, node) in nodes.iter().enumerate() {
        if holds_elsewhere(graph, group, place, *node) {
            return true;
        }
    }
    false
}

/// A place that holds a node of the class of `a`.
fn find_place(graph: &EGraph, group: &Group, a: Node) -> Option<usize>
    requires a_is_there { a < length graph.now.nodes }
    requires members { All (λ n. n < length graph.now.nodes) group.now }
    ensures some { IfSome result (HoldsAt (number_of graph.now) group.now a) }
    ensures none { IfNone result ((i : ℕ) → HoldsAt (number_of graph.now) group.now a i → ⊥) }
{
    let class = graph.class_of(a);
    if class.len() <= group.nodes().len() {
        place_of_any(group, class)
    } else {
        place_in_class(graph, group, a)
    }
}

/// A place of one of some nodes.
fn place_of_any(group: &Group, nodes: &[Node]) -> Option<usize>
    ensures some { IfSome result
        (λ p. (p < length group.now) × Contains nodes.now (slice_index group.now p)) }
    ensures none { IfNone result ((i : ℕ) → i < length group.now →
        Contains nodes.now (slice_index group.now i) → ⊥) }
{
    'nodes: for node in nodes {
        if let Some(place) = group.place(*node) {
            return Some(place);
        }
    }
    None
}

/// The first place that holds a node of the class of `a`.
fn place_in_class(graph: &EGraph, group: &Group, a: Node) -> Option<usize>
    requires a_is_there { a < length graph.now.nodes }
    requires members { All (λ n. n < length graph.now.nodes) group.now }
    ensures some { IfSome result (HoldsAt (number_of graph.now) group.now a) }
    ensures none { IfNone result ((i : ℕ) → HoldsAt (number_of graph.now) group.now a i → ⊥) }
{
    let nodes = group.nodes();
    'places: for (place, node) in nodes.iter().enumerate() {
        if graph.same(*node, a) {
            return Some(place);
        }
    }
    None
}

/// Whether another place holds a node of the class of `b`.
fn holds_elsewhere(graph: &EGraph, group: &Group, place: usize, b: Node) -> bool
    requires b_is_there { b < length graph.now.nodes }
    requires members { All (λ n. n < length graph.now.nodes) group.now }
    ensures { IsTrue result ↔ HoldsElsewhere (number_of graph.now) group.now place b }
{
    let class = graph.class_of(b);
    if class.len() <= group.nodes().len() {
        any_elsewhere(group, place, class)
    } else {
        class_elsewhere(graph, group, place, b)
    }
}

/// Whether another place holds one of some nodes.
fn any_elsewhere(group: &Group, place: usize, nodes: &[Node]) -> bool
    ensures { IsTrue result ↔ Any (StandsElsewhere group.now place) nodes.now }
{
    'nodes: for node in nodes {
        if group.stands_elsewhere(*node, place) {
            return true;
        }
    }
    false
}

/// Whether another place holds a node of the class of `b`, of which all places are looked at.
fn class_elsewhere(graph: &EGraph, group: &Group, place: usize, b: Node) -> bool
    requires b_is_there { b < length graph.now.nodes }
    requires members { All (λ n. n < length graph.now.nodes) group.now }
    ensures { IsTrue result ↔ HoldsElsewhere (number_of graph.now) group.now place b }
{
    let nodes = group.nodes();
    'others: for (other, node) in nodes.iter().enumerate() {
        if other != place && graph.same(*node, b) {
            return true;
        }
    }
    false
}
