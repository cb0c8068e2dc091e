ghost use Rattle.std.specs.Prelude.{◌≡◌, ℕ, ◌+◌, ◌-◌, ◌<◌, [], ◌∷◌, ◌++◌, length, take};
ghost use Rattle.std.specs.Prelude.{OnOk, OnErr, IfSome, IfNone, IsTrue, ◌↔◌, All};
ghost use Rattle.esc_nodes.specs.Nodes.{shape, shape_at, AreTerms};
ghost use Rattle.esc_nodes.specs.Terms.{term_of};
ghost use Rattle.esc_term.specs.Digest.{digest};
ghost use Rattle.esc_nodes.specs.DigestsInside.{shape_digest};

mod term;

use crate::table::Table;
use crate::top::Top;
use esc_term::mix;
use esc_union::{Node, narrow};
use std::alloc::{AllocError, Global};
use std::marker::Model;

/// The top of a node's term, and the places of its arguments among those of all nodes.
#[derive(Clone, Copy)]
struct Entry {
    top: Top,
    start: u32,
    end: u32,
}

/// The nodes in the order of making with their arguments, and a table by which they are found.
#[derive(Drop)]
pub struct Nodes {
    alloc: Global,
    entries: Vec<Entry>,
    args: Vec<Node>,
    table: Table,
}

impl Model for Nodes {
    ghost use Rattle.std.specs.Prelude.{List};
    ghost use Rattle.esc_nodes.specs.Nodes.{Shape};

    ghost Value = { List Shape };

    ghost use Rattle.esc_nodes.specs.NodesInside.{nodes_of, IsSound};

    ghost view = { nodes_of };

    ghost invariant = { IsSound };
}

impl Nodes {
    pub fn new(alloc: Global) -> Nodes
        ensures { result ≡ [] }
    {
        Nodes {
            alloc,
            entries: Vec::new(alloc),
            args: Vec::new(alloc),
            table: Table::new(alloc),
        }
    }

    /// How many nodes there are.
    pub fn count(&self) -> usize
        ensures count { result ≡ length self.now }
        ensures terms { AreTerms self.now }
    {
        self.entries.len()
    }

    /// What stands at the top of a node's term.
    pub fn top(&self, node: Node) -> Top
        requires { node < length self.now }
        ensures { result ≡ (shape_at self.now node).top }
    {
        self.entries[node.index()].top
    }

    /// The nodes of the arguments of a node's term.
    pub fn args(&self, node: Node) -> &[Node]
        requires { node < length self.now }
        ensures { result.now ≡ (shape_at self.now node).args }
    {
        let entry = self.entries[node.index()];
        &self.args[entry.start as usize..entry.end as usize]
    }

    /// The node with this top and these arguments, in the expected time of the arguments.
    pub fn find(&self, top: Top, args: &[Node]) -> Option<Node>
        ensures some { IfSome result (λ k. (k < length self.now)
            × (shape_at self.now k ≡ record { top = top; args = args.now })) }
        ensures none { IfNone result ((k : ℕ) → k < length self.now →
            shape_at self.now k ≡ record { top = top; args = args.now } → ⊥) }
    {
        let mut end = self.table.end(self.digest_of(top, args));
        'bucket: while end > 0 {
            let node = Node::new(end - 1);
            if self.is_shape(node, top, args) {
                return Some(node);
            }
            end = self.table.end_before(node.index());
        }
        None
    }

    /// The digest of the term with this top and these arguments.
    fn digest_of(&self, top: Top, args: &[Node]) -> u64
        ensures { result ≡ shape_digest self.now top args.now }
    {
        let mut done = top.digest();
        'places: for arg in args {
            done = mix(done, self.digest(*arg));
        }
        done
    }

    /// The digest of a node's term, which is the numeral 0 where there is no such node.
    fn digest(&self, node: Node) -> u64
        ensures { result ≡ digest (term_of self.now node) }
    {
        match self.table.digest(node.index()) {
            Some(digest) => digest,
            None => Top::Num(0).digest(),
        }
    }

    /// Whether a node has this top and these arguments.
    fn is_shape(&self, node: Node, top: Top, args: &[Node]) -> bool
        requires { node < length self.now }
        ensures { IsTrue result ↔
            (shape_at self.now node ≡ record { top = top; args = args.now }) }
    {
        self.top(node) == top && same_nodes(self.args(node), args)
    }

    /// Makes a node, which was not there.
    pub fn push(&mut self, top: Top, args: &[Node]) -> Result<(), AllocError>
        requires args_are_there { All (λ a. a < length self.old) args.now }
        requires bare { shape top args.now ≡ record { top = top; args = args.now } }
        requires absent { (k : ℕ) → k < length self.old →
            shape_at self.old k ≡ record { top = top; args = args.now } → ⊥ }
        ensures ok { OnOk result
            (self.new ≡ self.old ++ record { top = top; args = args.now } ∷ []) }
        ensures terms { AreTerms self.new }
        ensures err { OnErr result (self.new ≡ self.old) }
    {
        let digest = self.digest_of(top, args);
        let start = narrow(self.args.len())?;
        let end = narrow(self.args.len() + args.len())?;
        self.entries.reserve(1)?;
        self.args.reserve(args.len())?;
        self.table.push(digest)?;
        self.args.extend_from_slice(args).unwrap();
        self.entries.push(Entry { top, start, end }).unwrap();
        Ok(())
    }

    /// Takes the last node away.
    pub fn pop(&mut self)
        requires { 0 < length self.old }
        ensures rest { self.new ≡ take (length self.old - 1) self.old }
        ensures terms { AreTerms self.new }
    {
        let Some(entry) = self.entries.pop() else {
            unreachable!()
        };
        self.args.truncate(entry.start as usize);
        self.table.pop();
    }
}

/// The arguments of a term, of which a numeral has none.
pub fn arguments(top: Top, args: &[Node]) -> &[Node]
    ensures { result.now ≡ (shape top args.now).args }
{
    match top {
        Top::Num(_) => &args[..0],
        Top::App(_) => args,
    }
}

/// Whether two lists have the same nodes.
fn same_nodes(xs: &[Node], ys: &[Node]) -> bool
    ensures { IsTrue result ↔ (xs.now ≡ ys.now) }
{
    if xs.len() != ys.len() {
        return false;
    }
    'places: for (x, y) in xs.iter().zip(ys) {
        if x.index() != y.index() {
            return false;
        }
    }
    true
}
