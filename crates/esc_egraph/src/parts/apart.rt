ghost use Rattle.std.specs.Prelude.{◌≡◌, ℕ, ◌<◌, length, IsTrue, ◌↔◌, Any, All, IfSome, IfNone};
ghost use Rattle.esc_union.specs.Merges.{SameClass, class_number};
ghost use Rattle.esc_egraph.specs.ApartInside.{MeetsIn, HasNumeralsBetween};
ghost use Rattle.esc_egraph.specs.Congruence.{ForcedApart, Joins, ClashesIn, AreUnequalNumerals};
ghost use Rattle.esc_egraph.specs.PartsInside.{graph_in, IsNumeral, IsSound};
ghost use Rattle.esc_index.specs.Places.{entry_at};
ghost use Rattle.esc_nodes.specs.Nodes.{shape_at};

use crate::parts::Parts;
use esc_index::Index;
use esc_nodes::Top;
use esc_union::{Node, Partition};

impl Parts {
    /// Whether a forbidden pair or two different numerals stand in the classes of two nodes.
    pub(crate) fn forced_apart(&self, a: Node, b: Node) -> bool
        requires sound { IsSound self.now }
        requires a_is_there { a < length self.now.nodes }
        requires b_is_there { b < length self.now.nodes }
        ensures { IsTrue result ↔ ForcedApart (graph_in self.now) a b }
    {
        self.has_forbidden_between(a, b) || self.has_numerals_between(a, b)
    }

    /// Whether a forbidden pair has one side in each of two classes.
    fn has_forbidden_between(&self, a: Node, b: Node) -> bool
        requires sound { IsSound self.now }
        requires a_is_there { a < length self.now.nodes }
        requires b_is_there { b < length self.now.nodes }
        ensures { IsTrue result ↔ Any (Joins (class_number self.now.classes.merges) a b)
            self.now.forbidden.items }
    {
        if !self.sides.whole {
            return any_joins(&self.classes, self.forbidden.as_slice(), a, b);
        }
        if self.classes.members(a).len() <= self.classes.members(b).len() {
            self.has_side_in(a, b)
        } else {
            self.has_side_in(b, a)
        }
    }

    /// The same, by the sides in the first class.
    fn has_side_in(&self, a: Node, b: Node) -> bool
        requires sound { IsSound self.now }
        requires whole { IsTrue self.now.sides.whole }
        requires a_is_there { a < length self.now.nodes }
        requires b_is_there { b < length self.now.nodes }
        ensures { IsTrue result ↔ Any (Joins (class_number self.now.classes.merges) a b)
            self.now.forbidden.items }
    {
        let root = self.classes.root(a);
        meets(&self.sides.entries, &self.classes, root, b)
    }

    /// A numeral of a class.
    fn numeral(&self, node: Node) -> Option<Node>
        requires sound { IsSound self.now }
        requires there { node < length self.now.nodes }
        ensures some { IfSome result (λ x. (x < length self.now.nodes)
            × SameClass (class_number self.now.classes.merges) node x
            × IsNumeral (shape_at self.now.nodes x).top) }
        ensures none { IfNone result ((x : ℕ) → x < length self.now.nodes
            → SameClass (class_number self.now.classes.merges) node x
            → IsNumeral (shape_at self.now.nodes x).top → ⊥) }
    {
        let root = self.classes.root(node);
        let members = self.classes.members(node);
        let place = self.numerals[root.index()];
        if place < members.len() {
            return Some(members[place]);
        }
        None
    }

    /// Whether two different numerals stand in two classes.
    fn has_numerals_between(&self, a: Node, b: Node) -> bool
        requires sound { IsSound self.now }
        requires a_is_there { a < length self.now.nodes }
        requires b_is_there { b < length self.now.nodes }
        ensures { IsTrue result ↔ HasNumeralsBetween (graph_in self.now) a b }
    {
        let (Some(x), Some(y)) = (self.numeral(a), self.numeral(b)) else {
            return false;
        };
        are_unequal_numerals(self.nodes.top(x), self.nodes.top(y)) || self.clashes_in(x, b)
    }

    /// Whether a node of the class of `b` is another numeral than the node `a`.
    fn clashes_in(&self, a: Node, b: Node) -> bool
        requires sound { IsSound self.now }
        requires a_is_there { a < length self.now.nodes }
        requires b_is_there { b < length self.now.nodes }
        ensures { IsTrue result ↔ ClashesIn (graph_in self.now) a b }
    {
        let members = self.classes.members(b);
        'each: for member in members {
            if are_unequal_numerals(self.nodes.top(a), self.nodes.top(*member)) {
                return true;
            }
        }
        false
    }
}

/// Whether one of some pairs has one side in each of two classes.
fn any_joins(classes: &Partition, pairs: &[(Node, Node)], a: Node, b: Node) -> bool
    requires low { All (λ p. (p.0 < classes.now.count) × (p.1 < classes.now.count)) pairs.now }
    requires a_is_there { a < classes.now.count }
    requires b_is_there { b < classes.now.count }
    ensures { IsTrue result ↔ Any (Joins (class_number classes.now.merges) a b) pairs.now }
{
    'pairs: for pair in pairs {
        if joins(classes, *pair, a, b) {
            return true;
        }
    }
    false
}

/// Whether a pair has one side in each of two classes.
fn joins(classes: &Partition, pair: (Node, Node), a: Node, b: Node) -> bool
    requires first_is_there { pair.0 < classes.now.count }
    requires second_is_there { pair.1 < classes.now.count }
    requires a_is_there { a < classes.now.count }
    requires b_is_there { b < classes.now.count }
    ensures { IsTrue result ↔ Joins (class_number classes.now.merges) a b pair }
{
    (classes.same(pair.0, a) && classes.same(pair.1, b))
        || (classes.same(pair.0, b) && classes.same(pair.1, a))
}

/// Whether a node has an entry whose node stands in the class of another.
fn meets(entries: &Index, classes: &Partition, node: Node, other: Node) -> bool
    requires low { All (λ e. e.1 < classes.now.count) entries.now }
    requires other_is_there { other < classes.now.count }
    ensures { IsTrue result ↔ MeetsIn (class_number classes.now.merges) entries.now node other }
{
    let mut end = entries.len();
    'places: while let Some(place) = entries.last_before(node.index(), end) {
        if classes.same(entries.node(place), other) {
            return true;
        }
        end = place;
    }
    false
}

/// Whether the tops are numerals, and differ.
fn are_unequal_numerals(left: Top, right: Top) -> bool
    ensures { IsTrue result ↔ AreUnequalNumerals left right }
{
    match (left, right) {
        (Top::Num(x), Top::Num(y)) => x != y,
        _ => false,
    }
}
