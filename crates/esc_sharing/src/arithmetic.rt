//! The arithmetic as a theory: nodes are bound to unknowns, and orders restrict their gaps.

ghost use Rattle.std.specs.Prelude.{◌≡◌, [], ◌∷◌, IfErr};
ghost use Rattle.std.specs.List.{Contains};
ghost use Rattle.esc_cover.specs.Assignment.{gap};
ghost use Rattle.esc_trail.specs.Undo.{Notes};
ghost use Rattle.esc_simplex.specs.Barred.{IsBarred};
ghost use Rattle.esc_simplex.specs.SimplexUndo.{simplex_undo};
ghost use Rattle.esc_simplex.specs.View.{Allows, IsSimplex, numbers_in, senses_in};
ghost use Rattle.esc_sharing.specs.Admitted.{RestrictEnds};
ghost use Rattle.esc_sharing.specs.Nodes.{node_term};
ghost use Rattle.esc_sharing.specs.Numbers.{AddsMade, AreNumbersOf, IsGapOf, IsNumber};
ghost use Rattle.esc_sharing.specs.Numbers.{number_terms};

use crate::classes::class_numbers;
use crate::literal::Lit;
use crate::missed::missed_pair;
use crate::theory::Theory;
use esc_egraph::{EGraph, Node, State};
use esc_simplex::{Simplex, SimplexRec, Stop};
use esc_tableau::Unknown;
use esc_trail::{Carries, Trail};
use std::alloc::AllocError;

impl Theory for Simplex {
    ghost use Rattle.std.specs.List.{Contains};
    ghost use Rattle.esc_simplex.specs.Barred.{IsBarred};
    ghost use Rattle.esc_simplex.proofs.BackIsSound.{back_is_sound};
    ghost use Rattle.esc_simplex.specs.SimplexLaws.{same_allows};
    ghost use Rattle.esc_simplex.specs.View.{Allows, IsSimplex, numbers_in, senses_in};
    ghost use Rattle.esc_sharing.specs.ArithmeticLaws.{back_keeps, barred_by_wider};
    ghost use Rattle.esc_sharing.specs.Numbers.{IsGapOf};

    ghost sound = { IsSimplex };

    ghost admits = { Allows };

    ghost numbers = { numbers_in };

    ghost made = { senses_in };

    ghost barred = { λ v terms numbers stop. IsBarred v (Contains terms) (IsGapOf numbers) stop };

    fn number_count(&self) -> usize {
        self.bound_nodes().len()
    }

    fn number_at(&self, place: usize) -> Node {
        self.bound_nodes()[place].0
    }

    fn has_node(&self, a: Node) -> bool {
        self.unknown_of(a).is_some()
    }

    fn add_node<R: Carries<SimplexRec>>(
        &mut self,
        graph: &EGraph,
        a: Node,
        trail: &mut Trail<R>,
    ) -> Result<(), Stop> {
        if self.unknown_of(a).is_some() {
            return Ok(());
        }
        let Ok(term) = graph.term(a) else {
            return Err(Stop::Memory);
        };
        let unknown = self.unknown(&term, trail)?;
        match self.bind(a, unknown, trail) {
            Ok(()) => Ok(()),
            Err(AllocError) => Err(Stop::Memory),
        }
    }

    fn assert<R: Carries<SimplexRec>>(
        &mut self,
        graph: &EGraph,
        lit: Lit,
        trail: &mut Trail<R>,
    ) -> Result<State, Stop> {
        match lit {
            Lit::Equal(_, _) => Ok(State::Open),
            Lit::Apart(_, _) => Ok(State::Open),
            Lit::Below(a, b) => restrict_gap(self, graph, b, a, true, trail),
            Lit::AtMost(a, b) => restrict_gap(self, graph, b, a, false, trail),
        }
    }

    fn told_equal<R: Carries<SimplexRec>>(
        &mut self,
        _graph: &EGraph,
        a: Node,
        b: Node,
        trail: &mut Trail<R>,
    ) -> Result<State, Stop> {
        let first = number_unknown(self, a);
        let second = number_unknown(self, b);
        self.equal(first, second, trail)
    }

    fn next_equal(&mut self, graph: &EGraph) -> Result<Option<(Node, Node)>, Stop> {
        if self.number_count() == 0 {
            return Ok(None);
        }
        let Ok(chosen) = class_numbers(self, graph) else {
            return Err(Stop::Memory);
        };
        missed_pair(self, graph, &chosen)
    }

    ghost same_admits = { same_allows };

    ghost same_numbers = { λ v w h. h.numbers };

    ghost back_made = { back_keeps };

    ghost back_sound = { back_is_sound };

    ghost barred_by_more = { barred_by_wider };
}

/// The unknown of an arithmetic node.
fn number_unknown(simplex: &Simplex, a: Node) -> Unknown
    requires number { IsNumber (numbers_in simplex.now) a }
    ensures { Contains simplex.now.bound (a, result) }
{
    match simplex.unknown_of(a) {
        Some(unknown) => unknown,
        None => unreachable!(),
    }
}

/// Restricts the gap of two arithmetic nodes, upper less lower, and less 1 where it is strict.
fn restrict_gap<R: Carries<SimplexRec>>(
    simplex: &mut Simplex,
    graph: &EGraph,
    upper: Node,
    lower: Node,
    strict: bool,
    trail: &mut Trail<R>,
) -> Result<State, Stop>
    requires sound { IsSimplex simplex.old }
    requires numbers { AreNumbersOf graph.now (numbers_in simplex.old) }
    requires upper { IsNumber (numbers_in simplex.old) upper }
    requires lower { IsNumber (numbers_in simplex.old) lower }
    ensures ends { RestrictEnds (Allows simplex.old) (Allows simplex.new)
        (gap (node_term graph.now upper) (node_term graph.now lower) strict ∷ []) result }
    ensures numbers { numbers_in simplex.new ≡ numbers_in simplex.old }
    ensures sound { IsSimplex simplex.new }
    ensures made { AddsMade (senses_in simplex.old) (senses_in simplex.new)
        (number_terms (numbers_in simplex.old)) }
    ensures stop { IfErr result (IsBarred simplex.new (λ t. ⊥)
        (IsGapOf (number_terms (numbers_in simplex.old)))) }
    ensures undo { Notes simplex_undo R.carried trail.old.records trail.new.records simplex.old
        simplex.new }
{
    let above = number_unknown(simplex, upper);
    let below = number_unknown(simplex, lower);
    let unknown = simplex.gap(above, below, strict, trail)?;
    simplex.at_least_zero(unknown, trail)
}
