//! What is said of nodes.

ghost use Rattle.std.specs.Prelude.{◌≡◌, ◌⊎◌, ◌↔◌, ◌<◌, IsTrue, List, map, true, false};
ghost use Rattle.std.specs.List.{All};
ghost use Rattle.esc_term.specs.declared.formula.Formula.TheVariants as formula;
ghost use Rattle.esc_term.specs.declared.formula.Item.{Item};
ghost use Rattle.esc_cover.specs.Cover.{cover};
ghost use Rattle.esc_egraph.specs.Congruence.{ForcedApart};
ghost use Rattle.esc_egraph.specs.Graph.{number_of};
ghost use Rattle.esc_distinct.specs.Groups.{AreApart};
ghost use Rattle.esc_sharing.specs.Nodes.{classes_in, node_count, node_term};
ghost use Rattle.esc_said.specs.SayingInside.{tells_order, unlike_each};
ghost use Rattle.esc_said.specs.Speaking.{IsSaying, SaysAs, SpeaksFor};

use crate::said::Said;
use esc_distinct::Groups;
use esc_egraph::{EGraph, Node};
use esc_sharing::{Lit, Lits};

/// Who says what the classes of a graph, its groups and the literals that were asserted say.
#[derive(Clone, Copy)]
pub struct Saying<'a> {
    pub graph: &'a EGraph,
    pub groups: &'a Groups,
    pub asserted: &'a Lits,
}

impl<'a> Saying<'a> {
    /// What is said of the equation of two nodes' terms.
    pub fn equal(&self, a: Node, b: Node) -> Said
        requires saying { IsSaying self.now }
        requires a_is_there { a < node_count self.now.graph.now }
        requires b_is_there { b < node_count self.now.graph.now }
        ensures { (literals : List Item) → SpeaksFor self.now literals → SaysAs result
            (cover literals (classes_in self.now.graph.now)
            (formula.Eq (node_term self.now.graph.now a) (node_term self.now.graph.now b))) }
    {
        if self.graph.same(a, b) {
            return Said::HOLDS;
        }
        Said {
            holds: false,
            fails: self.keeps_apart(a, b),
        }
    }

    /// Whether the graph or the groups keep the classes of two nodes apart.
    fn keeps_apart(&self, a: Node, b: Node) -> bool
        requires saying { IsSaying self.now }
        requires a_is_there { a < node_count self.now.graph.now }
        requires b_is_there { b < node_count self.now.graph.now }
        ensures { IsTrue result ↔ (ForcedApart self.now.graph.now a b
            ⊎ AreApart (number_of self.now.graph.now) self.now.groups.now a b) }
    {
        self.graph.forced_apart(a, b) || self.groups.apart(self.graph, a, b)
    }

    /// What is said of the order of two nodes' terms: by the orders that were asserted.
    pub fn less(&self, a: Node, b: Node) -> Said
        requires a_is_there { a < node_count self.now.graph.now }
        requires b_is_there { b < node_count self.now.graph.now }
        ensures { (literals : List Item) → SpeaksFor self.now literals → SaysAs result
            (cover literals (classes_in self.now.graph.now)
            (formula.Less (node_term self.now.graph.now a) (node_term self.now.graph.now b))) }
    {
        let mut said = Said::NOTHING;
        'literals: for literal in self.asserted.as_slice() {
            said = said.beside(said_by(*literal, a, b));
        }
        said
    }

    /// What is said of the distinction of nodes' terms.
    pub fn distinct(&self, nodes: &[Node]) -> Said
        requires saying { IsSaying self.now }
        requires nodes { All (λ a. a < node_count self.now.graph.now) nodes.now }
        ensures { (literals : List Item) → SpeaksFor self.now literals → SaysAs result
            (cover literals (classes_in self.now.graph.now)
            (formula.Distinct (map (node_term self.now.graph.now) nodes.now))) }
    {
        let mut said = Said::HOLDS;
        'places: for (place, node) in nodes.iter().enumerate() {
            said = said.and(self.unlike(*node, &nodes[place + 1..]));
        }
        said
    }

    /// What is said of a node's term being unlike those of others.
    fn unlike(&self, a: Node, others: &[Node]) -> Said
        requires saying { IsSaying self.now }
        requires a_is_there { a < node_count self.now.graph.now }
        requires others { All (λ b. b < node_count self.now.graph.now) others.now }
        ensures { (literals : List Item) → SpeaksFor self.now literals → SaysAs result
            (unlike_each literals self.now.graph.now a others.now) }
    {
        let mut said = Said::HOLDS;
        'others: for other in others {
            said = said.and(self.equal(a, *other).turned());
        }
        said
    }
}

/// What a literal says of the order of two nodes' terms.
fn said_by(literal: Lit, a: Node, b: Node) -> Said
    ensures holds { result.holds ≡ tells_order a b true literal }
    ensures fails { result.fails ≡ tells_order a b false literal }
{
    match literal {
        Lit::Below(x, y) => Said {
            holds: x.index() == a.index() && y.index() == b.index(),
            fails: false,
        },
        Lit::AtMost(x, y) => Said {
            holds: false,
            fails: y.index() == a.index() && x.index() == b.index(),
        },
        Lit::Equal(_, _) => Said::NOTHING,
        Lit::Apart(_, _) => Said::NOTHING,
    }
}
