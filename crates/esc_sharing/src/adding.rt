//! A term comes in play.

ghost use Rattle.std.specs.Prelude.{◌≡◌, ◌<◌, [], ◌∷◌, ◌++◌, if◌then◌else◌};
ghost use Rattle.std.specs.Prelude.{IfErr, IfOk, IsTrue, OnOk};
ghost use Rattle.std.specs.List.{All};
ghost use Rattle.esc_term.specs.Term.{is_ground};
ghost use Rattle.esc_trail.specs.Undo.{Notes};
ghost use Rattle.esc_sharing.specs.Calls.{AddEnds, AddsNumbers, GathersFor, IsNodeOf, KeepsTerms};
ghost use Rattle.esc_sharing.specs.Calls.{PutsInPlay, StepEnds, becoming, terms_at};
ghost use Rattle.esc_sharing.specs.Nodes.{node_count};
ghost use Rattle.esc_sharing.specs.Numbers.{AddsMade, IsNumber, number_terms};
ghost use Rattle.esc_sharing.specs.Shared.{IsShared, seen};
ghost use Rattle.esc_sharing.specs.SharingUndo.{part_carried, sharing_undo};
ghost use Rattle.esc_sharing.specs.Stops.{UnlessMemory};

use crate::nodes::make_term;
use crate::numbers::add_numbers;
use crate::record::CarriesShare;
use crate::sharing::Sharing;
use crate::theory::Theory;
use esc_distinct::CarriesGroups;
use esc_egraph::{CarriesNodes, Node, State};
use esc_simplex::Stop;
use esc_term::Term;
use esc_trail::{Carries, Trail};
use std::alloc::AllocError;

impl<T: Theory> Sharing<T> {
    /// The node of a ground term, which comes in play with its subterms where it is not. The
    /// numerals, sums, differences and products in it become arithmetic with their arguments, and
    /// so does the term itself where it is a side. Closed only where no model makes all literals
    /// hold.
    pub fn add_term<R: CarriesNodes + CarriesGroups + CarriesShare + Carries<T::Rec>>(
        &mut self,
        term: &Term,
        side: bool,
        trail: &mut Trail<R>,
    ) -> Result<(Node, State), Stop>
        requires ground { IsTrue (is_ground term.now) }
        requires shared { IsShared (seen T.sound T.admits T.numbers self.old) }
        ensures ends { AddEnds (seen T.sound T.admits T.numbers self.old)
            (seen T.sound T.admits T.numbers self.new) term.now side result }
        ensures numbers { AddsNumbers (T.numbers self.old.theory) (T.numbers self.new.theory)
            (becoming term.now side) }
        ensures sound { T.sound self.new.theory }
        ensures made { AddsMade (T.made self.old.theory) (T.made self.new.theory)
            (number_terms (T.numbers self.old.theory) ++ becoming term.now side) }
        ensures stop { IfErr result (UnlessMemory (T.barred self.new.theory
            (becoming term.now side)
            (number_terms (T.numbers self.old.theory) ++ becoming term.now side))) }
        ensures undo { Notes (sharing_undo T.undo)
            (part_carried R.carried_node R.carried_group R.carried_share R.carried)
            trail.old.records trail.new.records self.old self.new }
    {
        let mut numbers = Vec::new(self.alloc);
        let Ok(node) = self.add_nodes(term, side, &mut numbers, trail) else {
            return Err(Stop::Memory);
        };
        numbers.sort_unstable_by_key(|number| number.index());
        let state = self.make_arithmetic(numbers.as_slice(), trail)?;
        Ok((node, state))
    }

    /// The node of a ground term, which comes in play with its subterms where it is not. The nodes
    /// that are to become arithmetic by it come behind the numbers, in no order and not each once.
    /// It fails only where memory is wanting, and then some of the subterms may be in play.
    pub fn add_nodes<R: CarriesNodes + CarriesGroups + CarriesShare + Carries<T::Rec>>(
        &mut self,
        term: &Term,
        side: bool,
        numbers: &mut Vec<Node>,
        trail: &mut Trail<R>,
    ) -> Result<Node, AllocError>
        requires ground { IsTrue (is_ground term.now) }
        requires shared { IsShared (seen T.sound T.admits T.numbers self.old) }
        ensures shared { OnOk result (IsShared (seen T.sound T.admits T.numbers self.new)) }
        ensures rest { self.new ≡ record self.old { graph = self.new.graph } }
        ensures puts { OnOk result (PutsInPlay (seen T.sound T.admits T.numbers self.old)
            (seen T.sound T.admits T.numbers self.new) term.now) }
        ensures node { IfOk result (IsNodeOf self.new.graph term.now) }
        ensures numbers { OnOk result (GathersFor self.new.graph numbers.old.items
            numbers.new.items (becoming term.now side)) }
        ensures undo { Notes (sharing_undo T.undo)
            (part_carried R.carried_node R.carried_group R.carried_share R.carried)
            trail.old.records trail.new.records self.old self.new }
    {
        let node = make_term(&mut self.graph, term, numbers, self.alloc, trail)?;
        push_side(numbers, node, side)?;
        Ok(node)
    }

    /// Makes nodes arithmetic, in this order, as far as they are not, and tells graph and theory
    /// what that brings. Closed only where no model makes all literals hold. After an error but for
    /// want of memory some may be arithmetic, and the last told pair may be underway.
    pub fn make_arithmetic<R: CarriesNodes + CarriesGroups + CarriesShare + Carries<T::Rec>>(
        &mut self,
        nodes: &[Node],
        trail: &mut Trail<R>,
    ) -> Result<State, Stop>
        requires shared { IsShared (seen T.sound T.admits T.numbers self.old) }
        requires nodes { All (λ a. a < node_count self.old.graph) nodes.now }
        ensures ends { StepEnds (seen T.sound T.admits T.numbers self.new)
            (IsShared (seen T.sound T.admits T.numbers self.new)) result }
        ensures all { OnOk result (All (IsNumber (T.numbers self.new.theory)) nodes.now) }
        ensures numbers { AddsNumbers (T.numbers self.old.theory) (T.numbers self.new.theory)
            (terms_at self.old.graph nodes.now) }
        ensures keeps { KeepsTerms T.sound T.made (number_terms (T.numbers self.old.theory)
            ++ terms_at self.old.graph nodes.now) self.old self.new }
        ensures stop { IfErr result (UnlessMemory (T.barred self.new.theory
            (terms_at self.old.graph nodes.now) (number_terms (T.numbers self.old.theory)
            ++ terms_at self.old.graph nodes.now))) }
        ensures undo { Notes (sharing_undo T.undo)
            (part_carried R.carried_node R.carried_group R.carried_share R.carried)
            trail.old.records trail.new.records self.old self.new }
    {
        let before = self.theory.number_count();
        add_numbers(&mut self.theory, &self.graph, nodes, trail)?;
        if self.theory.number_count() == before {
            return Ok(State::Open);
        }
        let Ok(mut known) = self.known_numbers(before) else {
            return Err(Stop::Memory);
        };
        self.settle(&mut known, trail)
    }
}

/// A side comes behind the others.
fn push_side(numbers: &mut Vec<Node>, node: Node, side: bool) -> Result<(), AllocError>
    ensures { OnOk result (numbers.new.items
        ≡ numbers.old.items ++ (if side then node ∷ [] else [])) }
{
    if side {
        numbers.push(node)?;
    }
    Ok(())
}
