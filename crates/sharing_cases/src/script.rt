//! A sharing over a theory, with its undo stack and the marks on it.

ghost use Rattle.std.specs.Prelude.{◌≡◌, ◌<◌, [], IfOk, IsTrue};
ghost use Rattle.std.specs.List.{All};
ghost use Rattle.esc_term.specs.Term.{is_ground};
ghost use Rattle.esc_cover.specs.Assignment.{Assignment};
ghost use Rattle.esc_sharing.specs.Literals.{AreSides};
ghost use Rattle.esc_sharing.specs.Nodes.{node_count};
ghost use Rattle.esc_sharing.specs.Numbers.{IsNumber};
ghost use Rattle.sharing_cases.specs.Undoable.{IsUndoable};

use crate::end::{End, ended, has_opened, is_open, node_in};
use esc_egraph::Node;
use esc_sharing::{Lit, PartRec, Sharing, Theory, staying_laws};
use esc_simplex::Stop;
use esc_term::{Term, all_ground};
use esc_trail::{Mark, Trail, Undoable};
use std::alloc::{AllocError, Global};

/// What was asserted, all of which can be taken back.
#[derive(Drop)]
pub struct Script<T, Q> {
    owner: Sharing<T>,
    trail: Trail<PartRec<Q>>,
    levels: Vec<Mark>,
    /// Whether nothing was closed or given up since the newest mark.
    goes: bool,
}

impl<T: Theory + Undoable<Rec = Q> + Drop, Q: Copy> Script<T, Q> {
    /// Nothing is asserted.
    pub fn new(alloc: Global, theory: T) -> Result<Script<T, Q>, AllocError>
        requires sound { T.sound theory }
        requires numbers { T.numbers theory ≡ [] }
        requires admits { (x : Assignment) → T.admits theory x }
        ensures { IfOk result (IsUndoable T.undo T.sound T.admits T.numbers) }
    {
        let owner = Sharing::new(alloc, theory)?;
        Ok(Script {
            owner,
            trail: Trail::new(alloc),
            levels: Vec::new(alloc),
            goes: true,
        })
    }

    /// Sets a mark. How many there are then.
    pub fn mark(&mut self) -> Result<usize, End>
        requires { IsUndoable T.undo T.sound T.admits T.numbers self.old }
        ensures { IsUndoable T.undo T.sound T.admits T.numbers self.new }
    {
        if !self.goes {
            return Err(End::NoTask);
        }
        match self.levels.push(self.trail.mark()) {
            Ok(()) => Ok(self.levels.len()),
            Err(_) => Err(End::Stopped(Stop::Memory)),
        }
    }

    /// Takes all back that came after the newest mark, and the mark. How many there are then.
    pub fn pop(&mut self) -> Result<usize, End>
        requires { IsUndoable T.undo T.sound T.admits T.numbers self.old }
        ensures { IsUndoable T.undo T.sound T.admits T.numbers self.new }
    {
        let Some(mark) = self.levels.pop() else {
            return Err(End::NoTask);
        };
        self.trail.pop_to(mark, &mut self.owner);
        self.goes = true;
        Ok(self.levels.len())
    }

    /// The node of a term, which comes in play.
    pub fn add(&mut self, term: &Term, side: bool) -> Result<Node, End>
        requires { IsUndoable T.undo T.sound T.admits T.numbers self.old }
        ensures { IsUndoable T.undo T.sound T.admits T.numbers self.new }
    {
        if !self.goes || !has_no_variable(term) {
            return Err(End::NoTask);
        }
        staying_laws::<T>();
        let added = self.owner.add_term(term, side, &mut self.trail);
        self.goes = has_opened(&added);
        node_in(added)
    }

    /// Asserts a literal.
    pub fn assert(&mut self, lit: Lit) -> Result<(), End>
        requires { IsUndoable T.undo T.sound T.admits T.numbers self.old }
        ensures { IsUndoable T.undo T.sound T.admits T.numbers self.new }
    {
        if !self.goes || !self.has_sides(&lit) {
            return Err(End::NoTask);
        }
        staying_laws::<T>();
        let state = self.owner.assert_literal(lit, &mut self.trail);
        self.goes = is_open(&state);
        ended(state)
    }

    /// Asserts that the nodes at any two places differ.
    pub fn assert_group(&mut self, nodes: &[Node]) -> Result<(), End>
        requires { IsUndoable T.undo T.sound T.admits T.numbers self.old }
        ensures { IsUndoable T.undo T.sound T.admits T.numbers self.new }
    {
        if !self.goes || !self.has_nodes(nodes) {
            return Err(End::NoTask);
        }
        staying_laws::<T>();
        let state = self.owner.assert_group(nodes, &mut self.trail);
        self.goes = is_open(&state);
        ended(state)
    }

    /// Whether two terms in play stand in one class.
    pub fn same(&self, first: &Term, second: &Term) -> Result<bool, End> {
        let graph = self.owner.graph();
        match (graph.node_of(first), graph.node_of(second)) {
            (Some(a), Some(b)) => Ok(graph.same(a, b)),
            _ => Err(End::NoTask),
        }
    }

    /// How many nodes are arithmetic.
    pub fn numbers(&self) -> usize {
        self.owner.theory().number_count()
    }

    /// Whether the literal may be asserted.
    fn has_sides(&self, lit: &Lit) -> bool
        ensures { IsTrue result → AreSides self.now.owner.graph (T.numbers self.now.owner.theory)
            lit.now }
    {
        match lit {
            Lit::Equal(a, b) | Lit::Apart(a, b) => self.has_node(*a) && self.has_node(*b),
            Lit::Below(a, b) | Lit::AtMost(a, b) => self.has_number(*a) && self.has_number(*b),
        }
    }

    fn has_node(&self, a: Node) -> bool
        ensures { IsTrue result → a < node_count self.now.owner.graph }
    {
        a.index() < self.owner.graph().count()
    }

    fn has_nodes(&self, nodes: &[Node]) -> bool
        ensures { IsTrue result → All (λ a. a < node_count self.now.owner.graph) nodes.now }
    {
        'nodes: for node in nodes {
            if !self.has_node(*node) {
                return false;
            }
        }
        true
    }

    /// Whether the node may be a side of an order.
    fn has_number(&self, a: Node) -> bool
        ensures there { IsTrue result → a < node_count self.now.owner.graph }
        ensures number { IsTrue result → IsNumber (T.numbers self.now.owner.theory) a }
    {
        self.has_node(a) && self.owner.theory().has_node(a)
    }
}

#[tactic(auto, using(crate::proofs::GroundForms::ground_forms))]
fn has_no_variable(term: &Term) -> bool
    ensures { result ≡ is_ground term.now }
{
    match term {
        Term::Num(_) => true,
        Term::Var(_) => false,
        Term::App(_, args) => all_ground(args),
    }
}
