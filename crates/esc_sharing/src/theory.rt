ghost use Rattle.std.specs.Prelude.{◌≡◌, ◌⊎◌, ◌↔◌, ℕ, ◌<◌, List, [], ◌∷◌, OnOk, OnErr, IfErr};
ghost use Rattle.std.specs.Prelude.{IsTrue, length};
ghost use Rattle.std.specs.List.{All, Contains};
ghost use Rattle.esc_term.specs.declared.term.Term.{Term};
ghost use Rattle.esc_cover.specs.Assignment.{Assignment, asked};
ghost use Rattle.esc_trail.specs.Undo.{Notes};
ghost use Rattle.esc_simplex.specs.Senses.{Sense};
ghost use Rattle.esc_simplex.specs.declared.stop.Stop.{Stop};
ghost use Rattle.esc_sharing.specs.Admitted.{AdmitsWith, AgreesOn, NextEnds, RestrictEnds};
ghost use Rattle.esc_sharing.specs.Admitted.{both_gaps};
ghost use Rattle.esc_sharing.specs.Literals.{AreSides, item_of, sides};
ghost use Rattle.esc_sharing.specs.Nodes.{node_count, node_term};
ghost use Rattle.esc_sharing.specs.Numbers.{AddsMade, AreNumbersOf, IsNumber, arithmetic_among};
ghost use Rattle.esc_sharing.specs.Numbers.{number_node, number_terms, pair_terms, with_number};
ghost use Rattle.esc_sharing.specs.Stops.{IsNoForm, UnlessMemory};

use crate::literal::Lit;
use esc_egraph::{EGraph, Node, State};
use esc_simplex::Stop;
use esc_trail::{Carries, Trail, Undoable};

/// What shares equalities with a graph: it admits assignments, and some nodes are arithmetic to it.
pub trait Theory: Undoable {
    // what holds of the theory between any two calls
    ghost sound: { Self → Type 0 };

    // the assignment is admitted
    ghost admits: { Self → Assignment → Type 0 };

    // the arithmetic nodes, each beside the term with which it was added
    ghost numbers: { Self → List (ℕ × Term) };

    // what each unknown in its rows stands for
    ghost made: { Self → List Sense };

    // a call that names the first terms, and may make gaps of the second ones, may answer this stop
    // and leave this view
    ghost barred: { Self → List Term → List Term → Stop → Type 0 };

    /// How many arithmetic nodes there are.
    fn number_count(&self) -> usize
        ensures { result ≡ length (numbers self.now) };

    /// The arithmetic node at a place of their list.
    fn number_at(&self, place: usize) -> Node
        requires place { place < length (numbers self.now) }
        ensures { result ≡ number_node (numbers self.now) place };

    /// Whether the node is arithmetic.
    fn has_node(&self, a: Node) -> bool
        ensures { IsTrue result ↔ IsNumber (numbers self.now) a };

    /// Makes the node arithmetic.
    fn add_node<R: Carries<Self::Rec>>(
        &mut self,
        graph: &EGraph,
        a: Node,
        trail: &mut Trail<R>,
    ) -> Result<(), Stop>
        requires sound { sound self.old }
        requires node { a < node_count graph.now }
        requires numbers { AreNumbersOf graph.now (numbers self.old) }
        ensures ok { OnOk result (numbers self.new
            ≡ with_number (numbers self.old) a (node_term graph.now a)) }
        ensures err { OnErr result ((numbers self.new ≡ numbers self.old)
            ⊎ (numbers self.new ≡ with_number (numbers self.old) a (node_term graph.now a))) }
        ensures admits { AdmitsWith (admits self.old) (admits self.new) [] }
        ensures sound { sound self.new }
        ensures made { AddsMade (made self.old) (made self.new)
            (number_terms (with_number (numbers self.old) a (node_term graph.now a))) }
        ensures stop { IfErr result (UnlessMemory (barred self.new (node_term graph.now a ∷ [])
            (number_terms (with_number (numbers self.old) a (node_term graph.now a))))) }
        ensures undo { Notes Self.undo R.carried trail.old.records trail.new.records self.old
            self.new };

    /// Asserts the literal: Closed where no admitted assignment satisfies it.
    fn assert<R: Carries<Self::Rec>>(
        &mut self,
        graph: &EGraph,
        lit: Lit,
        trail: &mut Trail<R>,
    ) -> Result<State, Stop>
        requires sound { sound self.old }
        requires numbers { AreNumbersOf graph.now (numbers self.old) }
        requires sides { AreSides graph.now (numbers self.old) lit }
        ensures ends { RestrictEnds (admits self.old) (admits self.new)
            (asked (item_of graph.now lit)) result }
        ensures numbers { numbers self.new ≡ numbers self.old }
        ensures sound { sound self.new }
        ensures made { AddsMade (made self.old) (made self.new) (number_terms (numbers self.old)) }
        ensures stop { IfErr result (UnlessMemory (barred self.new
            (arithmetic_among (numbers self.old) (pair_terms graph.now (sides lit)))
            (number_terms (numbers self.old)))) }
        ensures undo { Notes Self.undo R.carried trail.old.records trail.new.records self.old
            self.new };

    /// Takes the two nodes to be equal: Closed where no admitted assignment gives them one value.
    fn told_equal<R: Carries<Self::Rec>>(
        &mut self,
        graph: &EGraph,
        a: Node,
        b: Node,
        trail: &mut Trail<R>,
    ) -> Result<State, Stop>
        requires sound { sound self.old }
        requires numbers { AreNumbersOf graph.now (numbers self.old) }
        requires a { IsNumber (numbers self.old) a }
        requires b { IsNumber (numbers self.old) b }
        ensures ends { RestrictEnds (admits self.old) (admits self.new)
            (both_gaps (node_term graph.now a, node_term graph.now b)) result }
        ensures numbers { numbers self.new ≡ numbers self.old }
        ensures sound { sound self.new }
        ensures made { AddsMade (made self.old) (made self.new) (number_terms (numbers self.old)) }
        ensures stop { IfErr result (UnlessMemory (barred self.new []
            (number_terms (numbers self.old)))) }
        ensures no_form { IfErr result IsNoForm }
        ensures undo { Notes Self.undo R.carried trail.old.records trail.new.records self.old
            self.new };

    /// Two arithmetic nodes of different classes to which each admitted assignment gives one value.
    /// `None` where any two such nodes are parted by an admitted assignment.
    fn next_equal(&mut self, graph: &EGraph) -> Result<Option<(Node, Node)>, Stop>
        requires sound { sound self.old }
        requires numbers { AreNumbersOf graph.now (numbers self.old) }
        requires some { (x : Assignment) × admits self.old x }
        requires agree { (x : Assignment) → admits self.old x
            → AgreesOn graph.now (numbers self.old) x }
        ensures ends { NextEnds graph.now (numbers self.old) (admits self.old) result }
        ensures same { Self.undo.same self.old self.new }
        ensures sound { sound self.new }
        ensures made { AddsMade (made self.old) (made self.new) (number_terms (numbers self.old)) }
        ensures stop { IfErr result (UnlessMemory (barred self.new []
            (number_terms (numbers self.old)))) }
        ensures no_form { IfErr result IsNoForm };

    // views that agree in what is restored admit the same and have the same arithmetic nodes
    ghost same_admits: { (v w : Self) → Self.undo.same v w → (x : Assignment) → admits v x
        → admits w x };

    ghost same_numbers: { (v w : Self) → Self.undo.same v w → numbers v ≡ numbers w };

    // taking back leaves what unknowns in the rows stand for, and what holds between any two calls
    ghost back_made: { (v : Self) (rec : Self.Rec) → Self.undo.can v rec
        → made (Self.undo.back v rec) ≡ made v };

    ghost back_sound: { (v : Self) (rec : Self.Rec) → Self.undo.can v rec → sound v
        → sound (Self.undo.back v rec) };

    // what a call may answer, a call with more terms may answer too
    ghost barred_by_more: { (v : Self) (terms more numbers wider : List Term) (stop : Stop)
        → All (Contains more) terms → All (Contains wider) numbers → barred v terms numbers stop
        → barred v more wider stop };
}
