//! Which nodes are wanted in a match.

ghost use Rattle.std.specs.Prelude.{◌≡◌, ℕ, Bool, true};
ghost use Rattle.std.specs.List.{list_any};

use esc_egraph::Node;

/// A choice of nodes.
pub trait Wanted {
    ghost wanted: { Self → ℕ → Bool };

    fn wants(&self, node: Node) -> bool
        ensures { result ≡ wanted self.now node };
}

/// Every node.
#[derive(Clone, Copy)]
pub struct All;

impl Wanted for All {
    ghost wanted = { λ all node. true };

    fn wants(&self, node: Node) -> bool {
        true
    }
}

/// Whether one of the nodes is wanted.
pub(crate) fn is_any_wanted<W: Wanted>(nodes: &[Node], wanted: &W) -> bool
    ensures { result ≡ list_any (W.wanted wanted.now) nodes.now }
{
    'nodes: for node in nodes {
        if wanted.wants(*node) {
            return true;
        }
    }
    false
}
