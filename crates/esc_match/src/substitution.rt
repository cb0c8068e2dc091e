//! What a match gives the variables of a trigger.

ghost use Rattle.std.specs.Prelude.{◌≡◌, ◌↔◌, IsTrue, IfOk};
ghost use Rattle.std.specs.Cmp.{partial_equiv_from_equiv};
ghost use Rattle.esc_match.specs.Equal.{same_substitution, same_substitution-equivalence};
ghost use Rattle.esc_match.specs.DigestInside.{digest, hashed, hashed-alike};
ghost use Rattle.esc_match.specs.SubstitutionsInside.{nodes_for};

use crate::way::{Binding, class_bound};
use esc_egraph::Node;
use esc_term::mix;
use sqlite_items::Items;
use std::alloc::{AllocError, Global};
use std::hash::{Hash, Hasher};

pub type NodeList = Items<Node>;

/// A node of each variable's class, that of the outermost variable first.
#[derive(Drop)]
pub struct Substitution {
    pub nodes: NodeList,
}

/// The numbers of the classes of so many variables, that of the last one first.
#[tactic(auto, using(crate::proofs::Walks::nodes_walk))]
pub(crate) fn nodes_for(
    alloc: Global,
    count: u64,
    bound: &[Binding],
) -> Result<NodeList, AllocError>
    ensures { IfOk result (λ nodes. nodes ≡ nodes_for count bound.now) }
{
    let mut nodes = Items::new(alloc);
    let mut left = count;
    'variables: while left > 0 {
        left -= 1;
        let class = class_bound(bound, left).unwrap_or(Node::new(0));
        nodes.push(class)?;
    }
    Ok(nodes)
}

fn are_same(lefts: &[Node], rights: &[Node]) -> bool
    ensures { IsTrue result ↔ (lefts.now ≡ rights.now) }
{
    if lefts.len() != rights.len() {
        return false;
    }
    'places: for (place, left) in lefts.iter().enumerate() {
        if *left != rights[place] {
            return false;
        }
    }
    true
}

fn is_same(left: &Substitution, right: &Substitution) -> bool
    ensures { IsTrue result ↔ (left.now ≡ right.now) }
{
    are_same(left.nodes.as_slice(), right.nodes.as_slice())
}

impl PartialEq for Substitution {
    ghost eq = { same_substitution };

    ghost laws = { partial_equiv_from_equiv same_substitution-equivalence };

    fn eq(&self, other: &Substitution) -> bool
        ensures test { result ≡ same_substitution self.now other.now }
        ensures same { IsTrue result ↔ (self.now ≡ other.now) }
    {
        is_same(self, other)
    }
}

impl Eq for Substitution {
    ghost laws = { same_substitution-equivalence };
}

fn digest_of(nodes: &[Node]) -> u64
    ensures { result ≡ digest nodes.now }
{
    let mut done = 0;
    'nodes: for node in nodes {
        done = mix(done, node.index() as u64);
    }
    done
}

impl Hash for Substitution {
    ghost hash_input = { hashed };

    ghost respects_eq = { hashed-alike.fed };

    fn hash<H: Hasher>(&self, state: &mut H) {
        state.write_u64(digest_of(self.nodes.as_slice()));
    }
}
