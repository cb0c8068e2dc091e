ghost use Rattle.std.specs.Prelude.{◌≡◌, ℕ, ◌+◌, ◌<◌, length, IsTrue, ◌↔◌, IfOk, IfSome, IfNone};
ghost use Rattle.esc_union.specs.Merges.{SameClass, IsClassOf, AreMerges};
ghost use Rattle.esc_egraph.specs.Graph.{number_of};
ghost use Rattle.esc_egraph.specs.Congruence.{ForcedApart};
ghost use Rattle.esc_nodes.specs.Nodes.{shape_at};
ghost use Rattle.esc_nodes.specs.Terms.{term_of};

use crate::graph::EGraph;
use esc_nodes::Top;
use esc_term::Term;
use esc_union::Node;
use std::alloc::AllocError;

impl EGraph {
    /// Whether two nodes stand in one class.
    pub fn same(&self, a: Node, b: Node) -> bool
        requires a_is_there { a < length self.now.nodes }
        requires b_is_there { b < length self.now.nodes }
        ensures { IsTrue result ↔ SameClass (number_of self.now) a b }
    {
        self.parts.classes.same(a, b)
    }

    /// The nodes of the class of a node, each once.
    pub fn class_of(&self, a: Node) -> &[Node]
        requires { a < length self.now.nodes }
        ensures { IsClassOf (length self.now.nodes) (number_of self.now) a result.now }
    {
        self.parts.classes.members(a)
    }

    /// The number of a node's class, which is one of its nodes.
    pub fn class_number(&self, a: Node) -> Node
        requires { a < length self.now.nodes }
        ensures number { result ≡ number_of self.now a }
        ensures there { result < length self.now.nodes }
        ensures own { number_of self.now result ≡ result }
    {
        self.parts.classes.root(a)
    }

    /// The pairs whose classes were merged, in order.
    pub fn merges(&self) -> &[(Node, Node)]
        ensures is { result.now ≡ self.now.merges }
        ensures joined { AreMerges (length self.now.nodes) self.now.merges }
    {
        self.parts.classes.merges()
    }

    /// What stands at the top of a node's term.
    pub fn top(&self, a: Node) -> Top
        requires { a < length self.now.nodes }
        ensures { result ≡ (shape_at self.now.nodes a).top }
    {
        self.parts.nodes.top(a)
    }

    /// The nodes of the arguments of a node's term.
    pub fn args(&self, a: Node) -> &[Node]
        requires { a < length self.now.nodes }
        ensures { result.now ≡ (shape_at self.now.nodes a).args }
    {
        self.parts.nodes.args(a)
    }

    /// The node of a term.
    pub fn node_of(&self, term: &Term) -> Option<Node>
        ensures some { IfSome result (λ n. (n < length self.now.nodes)
            × (term_of self.now.nodes n ≡ term.now)) }
        ensures none { IfNone result ((n : ℕ) → n < length self.now.nodes → term_of self.now.nodes n
            ≡ term.now → ⊥) }
    {
        self.parts.nodes.node_of(term)
    }

    /// The term of a node.
    pub fn term(&self, a: Node) -> Result<Term, AllocError>
        requires { a < length self.now.nodes }
        ensures { IfOk result (λ t. t ≡ term_of self.now.nodes a) }
    {
        self.parts.nodes.term(a)
    }

    /// Whether a forbidden pair or two different numerals stand in the classes of two nodes.
    pub fn forced_apart(&self, a: Node, b: Node) -> bool
        requires a_is_there { a < length self.now.nodes }
        requires b_is_there { b < length self.now.nodes }
        ensures { IsTrue result ↔ ForcedApart self.now a b }
    {
        self.parts.forced_apart(a, b)
    }
}
