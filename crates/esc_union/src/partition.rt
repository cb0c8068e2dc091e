ghost use Rattle.std.specs.Prelude.{◌≡◌, ℕ, ◌+◌, ◌-◌, ◌<◌, ◌≤◌, [], ◌∷◌, ◌++◌, length, take, OnOk, OnErr, IsTrue, ◌↔◌, All};
ghost use Rattle.esc_union.specs.Members.{members_of, moved_by};
ghost use Rattle.esc_union.specs.Merges.{SameClass, IsClassOf, AreMerges, class_number};

use crate::bits::narrow;
use crate::lists::{Members, add_members, set_roots};
use crate::node::Node;
use std::alloc::{AllocError, Global};
use std::marker::Model;

/// For each node the root of its class, for each root the members of its class, the merges, and
/// for each merge the root that it did away with, whose members stay as they were. Roots are held
/// in 32 bits.
#[derive(Drop)]
pub struct Partition {
    alloc: Global,
    roots: Vec<u32>,
    members: Vec<Members>,
    merges: Vec<(Node, Node)>,
    absorbed: Vec<u32>,
}

impl Model for Partition {
    ghost use Rattle.esc_union.specs.Merges.{Merged};

    ghost Value = { Merged };

    ghost use Rattle.esc_union.specs.PartitionInside.{merged_of, IsSound};

    ghost view = { merged_of };

    ghost invariant = { IsSound };
}

impl Partition {
    /// No nodes.
    pub fn new(alloc: Global) -> Partition
        ensures { result ≡ record { count = 0; merges = [] } }
    {
        Partition {
            alloc,
            roots: Vec::new(alloc),
            members: Vec::new(alloc),
            merges: Vec::new(alloc),
            absorbed: Vec::new(alloc),
        }
    }

    /// How many nodes there are.
    pub fn count(&self) -> usize
        ensures count { result ≡ self.now.count }
        ensures merges { AreMerges self.now.count self.now.merges }
    {
        self.roots.len()
    }

    /// The number of a node's class, which is one of its nodes.
    pub fn root(&self, node: Node) -> Node
        requires { node < self.now.count }
        ensures root { result ≡ class_number self.now.merges node }
        ensures there { result < self.now.count }
        ensures own { class_number self.now.merges result ≡ result }
    {
        Node::new(self.roots[node.index()] as usize)
    }

    /// Whether two nodes stand in one class.
    pub fn same(&self, a: Node, b: Node) -> bool
        requires a_is_there { a < self.now.count }
        requires b_is_there { b < self.now.count }
        ensures { IsTrue result ↔ SameClass (class_number self.now.merges) a b }
    {
        self.roots[a.index()] == self.roots[b.index()]
    }

    /// The nodes of a node's class.
    pub fn members(&self, node: Node) -> &[Node]
        requires { node < self.now.count }
        ensures class { IsClassOf self.now.count (class_number self.now.merges) node result.now }
        ensures list { result.now ≡ members_of self.now.merges (class_number self.now.merges node) }
    {
        let root = self.roots[node.index()];
        self.members[root as usize].as_slice()
    }

    /// The merges, in order.
    pub fn merges(&self) -> &[(Node, Node)]
        ensures { result.now ≡ self.now.merges }
    {
        self.merges.as_slice()
    }

    /// The nodes of the class that a merge did away with.
    pub fn moved(&self, merge: usize) -> &[Node]
        requires { merge < length self.now.merges }
        ensures { result.now ≡ moved_by self.now.merges merge }
    {
        let root = self.absorbed[merge];
        self.members[root as usize].as_slice()
    }

    /// Adds a node, which stands alone.
    pub fn push(&mut self) -> Result<(), AllocError>
        ensures ok { OnOk result (self.new ≡ record self.old { count = self.old.count + 1 }) }
        ensures err { OnErr result (self.new ≡ self.old) }
    {
        self.roots.reserve(1)?;
        self.members.reserve(1)?;
        let node = self.roots.len();
        let root = narrow(node)?;
        let mut alone = Members::new(self.alloc);
        alone.push(Node::new(node))?;
        self.members.push(alone).unwrap();
        self.roots.push(root).unwrap();
        Ok(())
    }

    /// Takes the last node away.
    pub fn pop(&mut self)
        requires there { 0 < self.old.count }
        requires alone { All (λ m. (m.0 + 1 < self.old.count) × (m.1 + 1 < self.old.count))
            self.old.merges }
        ensures { self.new ≡ record self.old { count = self.old.count - 1 } }
    {
        let _ = self.roots.pop();
        let _ = self.members.pop();
    }

    /// Makes the class of one node a part of the class of another, in time by the former's members.
    pub fn merge(&mut self, from: Node, into: Node) -> Result<(), AllocError>
        requires from_is_there { from < self.old.count }
        requires into_is_there { into < self.old.count }
        requires apart { SameClass (class_number self.old.merges) from into → ⊥ }
        ensures ok { OnOk result (self.new ≡ record self.old {
          merges = self.old.merges
              ++ (from, into) ∷ [];
        }) }
        ensures err { OnErr result (self.new ≡ self.old) }
    {
        let small = self.roots[from.index()];
        let large = self.roots[into.index()];
        self.merges.reserve(1)?;
        self.absorbed.reserve(1)?;
        add_members(&mut self.members, small, large, self.alloc)?;
        let moving = self.members[small as usize].as_slice();
        set_roots(&mut self.roots, moving, large);
        self.absorbed.push(small).unwrap();
        self.merges.push((from, into)).unwrap();
        Ok(())
    }

    /// Takes the last merge back.
    pub fn unmerge(&mut self)
        requires { 0 < length self.old.merges }
        ensures { self.new ≡ record self.old {
          merges = take (length self.old.merges - 1)
              self.old.merges;
        } }
    {
        let Some(last) = self.merges.pop() else {
            unreachable!()
        };
        let Some(small) = self.absorbed.pop() else {
            unreachable!()
        };
        let large = self.roots[last.1.index()];
        let moving = self.members[small as usize].as_slice();
        set_roots(&mut self.roots, moving, small);
        let kept = self.members[large as usize].len() - moving.len();
        self.members[large as usize].truncate(kept);
    }
}
