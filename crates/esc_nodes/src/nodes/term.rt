ghost use Rattle.std.specs.Prelude.{◌≡◌, ℕ, ◌+◌, ◌<◌, length, map, All, IsTrue, ◌↔◌};
ghost use Rattle.std.specs.Prelude.{IfOk, IfSome, IfNone};
ghost use Rattle.esc_nodes.specs.Nodes.{AreTerms};
ghost use Rattle.esc_nodes.specs.Terms.{term_of};

use crate::nodes::Nodes;
use crate::top::Top;
use esc_term::{Term, digest_term, with_room};
use esc_union::Node;
use std::alloc::AllocError;

impl Nodes {
    /// The node of a term, in the expected time of the term.
    pub fn node_of(&self, term: &Term) -> Option<Node>
        ensures some { IfSome result
            (λ n. (n < length self.now) × (term_of self.now n ≡ term.now)) }
        ensures none { IfNone result
            ((n : ℕ) → n < length self.now → term_of self.now n ≡ term.now → ⊥) }
    {
        let mut end = self.table.end(digest_term(term));
        'bucket: while end > 0 {
            let node = Node::new(end - 1);
            if self.has_term(node, term) {
                return Some(node);
            }
            end = self.table.end_before(node.index());
        }
        None
    }

    /// Whether a node has this term.
    #[cycle(has_term)]
    fn has_term(&self, node: Node, term: &Term) -> bool
        requires there { node < length self.now }
        requires terms { AreTerms self.now }
        ensures { IsTrue result ↔ (term_of self.now node ≡ term.now) }
    {
        match self.top(node) {
            Top::Num(n) => is_numeral(term, n),
            Top::App(head) => match term {
                Term::App(other, terms) => {
                    if head != *other {
                        return false;
                    }
                    self.have_terms(self.args(node), terms.as_slice())
                }
                Term::Num(_) | Term::Var(_) => false,
            },
        }
    }

    /// Whether nodes have these terms, place by place.
    #[cycle(has_term)]
    fn have_terms(&self, nodes: &[Node], terms: &[Term]) -> bool
        requires there { All (λ n. n < length self.now) nodes.now }
        requires terms { AreTerms self.now }
        ensures { IsTrue result ↔ (map (term_of self.now) nodes.now ≡ terms.now) }
    {
        if nodes.len() != terms.len() {
            return false;
        }
        'places: for (place, term) in terms.iter().enumerate() {
            if !self.has_term(nodes[place], term) {
                return false;
            }
        }
        true
    }

    /// The term of a node.
    pub fn term(&self, node: Node) -> Result<Term, AllocError>
        requires { node < length self.now }
        ensures { IfOk result (λ t. t ≡ term_of self.now node) }
    {
        let alloc = self.alloc;
        match self.top(node) {
            Top::Num(n) => Ok(Term::Num(n)),
            Top::App(head) => {
                let args = self.args(node);
                let mut terms = with_room(alloc, args.len())?;
                'places: for arg in args {
                    terms.push(self.term(*arg)?)?;
                }
                Ok(Term::App(head, terms))
            }
        }
    }
}

/// Whether a term is this numeral.
fn is_numeral(term: &Term, value: i64) -> bool
    ensures { IsTrue result ↔ (term.now ≡ Term.Num value) }
{
    match term {
        Term::Num(n) => *n == value,
        Term::Var(_) | Term::App(_, _) => false,
    }
}
