//! A literal that is on the list goes into graph or theory.

ghost use Rattle.std.specs.Prelude.{◌≡◌, ℕ, [], ◌∷◌, ◌++◌, false, length, IfErr, IsTrue};
ghost use Rattle.std.specs.Prelude.{OnErr, OnOk};
ghost use Rattle.esc_union.specs.Merges.{SameClass};
ghost use Rattle.esc_egraph.specs.Graph.{Adds, number_of};
ghost use Rattle.esc_sharing.specs.AssertingInside.{IsAsserting, IsOrder};
ghost use Rattle.esc_sharing.specs.KnownInside.{AreKnownBy, AreLabeled};
ghost use Rattle.esc_sharing.specs.Literals.{sides};
ghost use Rattle.esc_sharing.specs.Numbers.{arithmetic_among, number_terms, pair_terms};
ghost use Rattle.esc_sharing.specs.SettlingInside.{IsUnsettled, Keeps};
ghost use Rattle.esc_sharing.specs.Calls.{StepEnds};
ghost use Rattle.esc_sharing.specs.Shared.{IsShared, seen};
ghost use Rattle.esc_sharing.specs.SharingUndo.{part_carried};
ghost use Rattle.esc_sharing.specs.Stops.{UnlessMemory};

use crate::literal::Lit;
use crate::record::{CarriesShare, ShareRec};
use crate::sharing::Sharing;
use crate::theory::Theory;
use esc_distinct::CarriesGroups;
use esc_egraph::{CarriesNodes, Node, State};
use esc_simplex::Stop;
use esc_trail::{Carries, Trail};
use std::alloc::AllocError;

impl<T: Theory> Sharing<T> {
    /// Adds a literal to the list.
    pub(crate) fn push_asserted<R: CarriesShare>(
        &mut self,
        lit: Lit,
        trail: &mut Trail<R>,
    ) -> Result<(), AllocError>
        ensures ok { OnOk result
            (self.new ≡ record self.old { asserted = self.old.asserted ++ lit ∷ [] }) }
        ensures err { OnErr result (self.new ≡ self.old) }
        ensures noted { OnOk result
            (trail.new.records ≡ trail.old.records ++ R.carried_share ShareRec.Asserted ∷ []) }
        ensures still { OnErr result (trail.new.records ≡ trail.old.records) }
    {
        trail.reserve(1)?;
        self.asserted.push(lit)?;
        trail.note(R::carry_share(ShareRec::Asserted));
        Ok(())
    }

    /// The last literal goes where its kind belongs, and then all is told that it brings.
    pub(crate) fn settle_literal<R: CarriesNodes + CarriesGroups + CarriesShare + Carries<T::Rec>>(
        &mut self,
        lit: Lit,
        known: &mut [(Node, usize)],
        trail: &mut Trail<R>,
    ) -> Result<State, Stop>
        requires asserting { IsAsserting (seen T.sound T.admits T.numbers self.old) lit }
        requires labeled { AreLabeled (T.numbers self.old.theory) known.old }
        requires known { (a b : ℕ) → AreKnownBy known.old a b
            → SameClass (number_of self.old.graph) a b }
        ensures ends { StepEnds (seen T.sound T.admits T.numbers self.new)
            (IsShared (seen T.sound T.admits T.numbers self.new)) result }
        ensures keeps { Keeps T.undo
            (part_carried R.carried_node R.carried_group R.carried_share R.carried) T.sound
            T.numbers T.made [] [] trail.old.records trail.new.records self.old self.new }
        ensures stop { IfErr result (UnlessMemory (T.barred self.new.theory
            (arithmetic_among (T.numbers self.old.theory) (pair_terms self.old.graph (sides lit)))
            (number_terms (T.numbers self.old.theory)))) }
    {
        let order = is_order(&lit);
        let before = self.graph.merges().len();
        match self.take_literal(lit, trail)? {
            State::Closed => Ok(State::Closed),
            State::Open => {
                if self.is_quiet(order, before) {
                    return Ok(State::Open);
                }
                self.settle(known, trail)
            }
        }
    }

    /// Whether neither classes nor what is admitted changed, by whether the theory was asked to
    /// restrict it, and how many merges there were before.
    fn is_quiet(&self, order: bool, before: usize) -> bool
        ensures order { IsTrue result → order ≡ false }
        ensures merges { IsTrue result → length self.now.graph.merges ≡ before }
    {
        if order {
            return false;
        }
        self.graph.merges().len() == before
    }

    /// The last literal goes where its kind belongs.
    fn take_literal<R: CarriesNodes + CarriesGroups + CarriesShare + Carries<T::Rec>>(
        &mut self,
        lit: Lit,
        trail: &mut Trail<R>,
    ) -> Result<State, Stop>
        requires asserting { IsAsserting (seen T.sound T.admits T.numbers self.old) lit }
        ensures ends { StepEnds (seen T.sound T.admits T.numbers self.new)
            (IsUnsettled (seen T.sound T.admits T.numbers self.new)
            (SameClass (number_of self.old.graph))) result }
        ensures merges { Adds self.old.graph.merges self.new.graph.merges }
        ensures theory { (IsOrder lit → ⊥) → self.new.theory ≡ self.old.theory }
        ensures keeps { Keeps T.undo
            (part_carried R.carried_node R.carried_group R.carried_share R.carried) T.sound
            T.numbers T.made [] [] trail.old.records trail.new.records self.old self.new }
        ensures stop { IfErr result (UnlessMemory (T.barred self.new.theory
            (arithmetic_among (T.numbers self.old.theory) (pair_terms self.old.graph (sides lit)))
            (number_terms (T.numbers self.old.theory)))) }
    {
        match lit {
            Lit::Equal(a, b) => self.take_equal(a, b, trail),
            Lit::Apart(a, b) => self.take_apart(a, b, trail),
            Lit::Below(_, _) => self.take_order(lit, trail),
            Lit::AtMost(_, _) => self.take_order(lit, trail),
        }
    }

    /// The graph joins the sides of an equation.
    fn take_equal<R: CarriesNodes + CarriesGroups + CarriesShare + Carries<T::Rec>>(
        &mut self,
        a: Node,
        b: Node,
        trail: &mut Trail<R>,
    ) -> Result<State, Stop>
        requires asserting { IsAsserting (seen T.sound T.admits T.numbers self.old)
            (Lit.Equal a b) }
        ensures ends { StepEnds (seen T.sound T.admits T.numbers self.new)
            (IsUnsettled (seen T.sound T.admits T.numbers self.new)
            (SameClass (number_of self.old.graph))) result }
        ensures merges { Adds self.old.graph.merges self.new.graph.merges }
        ensures theory { self.new.theory ≡ self.old.theory }
        ensures keeps { Keeps T.undo
            (part_carried R.carried_node R.carried_group R.carried_share R.carried) T.sound
            T.numbers T.made [] [] trail.old.records trail.new.records self.old self.new }
        ensures stop { IfErr result (λ stop. stop ≡ Stop.Memory) }
    {
        match self.equate(a, b, trail) {
            Ok(state) => Ok(state),
            Err(_) => Err(Stop::Memory),
        }
    }

    /// The graph keeps the sides of a denied equation apart.
    fn take_apart<R: CarriesNodes + CarriesGroups + CarriesShare + Carries<T::Rec>>(
        &mut self,
        a: Node,
        b: Node,
        trail: &mut Trail<R>,
    ) -> Result<State, Stop>
        requires asserting { IsAsserting (seen T.sound T.admits T.numbers self.old)
            (Lit.Apart a b) }
        ensures ends { StepEnds (seen T.sound T.admits T.numbers self.new)
            (IsUnsettled (seen T.sound T.admits T.numbers self.new)
            (SameClass (number_of self.old.graph))) result }
        ensures merges { self.new.graph.merges ≡ self.old.graph.merges }
        ensures theory { self.new.theory ≡ self.old.theory }
        ensures keeps { Keeps T.undo
            (part_carried R.carried_node R.carried_group R.carried_share R.carried) T.sound
            T.numbers T.made [] [] trail.old.records trail.new.records self.old self.new }
        ensures stop { IfErr result (λ stop. stop ≡ Stop.Memory) }
    {
        match self.graph.forbid(a, b, trail) {
            Ok(state) => Ok(state),
            Err(_) => Err(Stop::Memory),
        }
    }

    /// The theory restricts what it admits to what an order asks.
    fn take_order<R: CarriesNodes + CarriesGroups + CarriesShare + Carries<T::Rec>>(
        &mut self,
        lit: Lit,
        trail: &mut Trail<R>,
    ) -> Result<State, Stop>
        requires asserting { IsAsserting (seen T.sound T.admits T.numbers self.old) lit }
        requires order { IsOrder lit }
        ensures ends { StepEnds (seen T.sound T.admits T.numbers self.new)
            (IsUnsettled (seen T.sound T.admits T.numbers self.new)
            (SameClass (number_of self.old.graph))) result }
        ensures graph { self.new.graph ≡ self.old.graph }
        ensures keeps { Keeps T.undo
            (part_carried R.carried_node R.carried_group R.carried_share R.carried) T.sound
            T.numbers T.made [] [] trail.old.records trail.new.records self.old self.new }
        ensures stop { IfErr result (UnlessMemory (T.barred self.new.theory
            (arithmetic_among (T.numbers self.old.theory) (pair_terms self.old.graph (sides lit)))
            (number_terms (T.numbers self.old.theory)))) }
    {
        self.theory.assert(&self.graph, lit, trail)
    }
}

/// Whether a literal restricts what the theory admits.
fn is_order(lit: &Lit) -> bool
    ensures { result ≡ false → IsOrder lit.now → ⊥ }
{
    match lit {
        Lit::Equal(_, _) | Lit::Apart(_, _) => false,
        Lit::Below(_, _) | Lit::AtMost(_, _) => true,
    }
}
