//! What is asserted of nodes.

ghost use Rattle.std.specs.Prelude.{◌≡◌, [], ◌∷◌, ◌<◌, IfErr};
ghost use Rattle.std.specs.List.{All};
ghost use Rattle.esc_trail.specs.Undo.{Notes};
ghost use Rattle.esc_sharing.specs.Calls.{AssertEnds};
ghost use Rattle.esc_sharing.specs.Literals.{AreSides, sides};
ghost use Rattle.esc_sharing.specs.Nodes.{node_count};
ghost use Rattle.esc_sharing.specs.Numbers.{AddsMade, arithmetic_among, number_terms, pair_terms};
ghost use Rattle.esc_sharing.specs.Shared.{IsShared, seen};
ghost use Rattle.esc_sharing.specs.SharingUndo.{part_carried, sharing_undo};
ghost use Rattle.esc_sharing.specs.Stops.{UnlessMemory};

use crate::literal::Lit;
use crate::record::CarriesShare;
use crate::sharing::Sharing;
use crate::theory::Theory;
use esc_distinct::CarriesGroups;
use esc_egraph::{CarriesNodes, Node, State};
use esc_simplex::Stop;
use esc_trail::{Carries, Trail};

impl<T: Theory> Sharing<T> {
    /// Asserts a literal: Closed only where no model makes all literals hold.
    pub fn assert_literal<R: CarriesNodes + CarriesGroups + CarriesShare + Carries<T::Rec>>(
        &mut self,
        lit: Lit,
        trail: &mut Trail<R>,
    ) -> Result<State, Stop>
        requires shared { IsShared (seen T.sound T.admits T.numbers self.old) }
        requires sides { AreSides self.old.graph (T.numbers self.old.theory) lit }
        ensures ends { AssertEnds (seen T.sound T.admits T.numbers self.old)
            (seen T.sound T.admits T.numbers self.new) (lit ∷ []) [] result }
        ensures numbers { T.numbers self.new.theory ≡ T.numbers self.old.theory }
        ensures sound { T.sound self.new.theory }
        ensures made { AddsMade (T.made self.old.theory) (T.made self.new.theory)
            (number_terms (T.numbers self.old.theory)) }
        ensures stop { IfErr result (UnlessMemory (T.barred self.new.theory
            (arithmetic_among (T.numbers self.old.theory) (pair_terms self.old.graph (sides lit)))
            (number_terms (T.numbers self.old.theory)))) }
        ensures undo { Notes (sharing_undo T.undo)
            (part_carried R.carried_node R.carried_group R.carried_share R.carried)
            trail.old.records trail.new.records self.old self.new }
    {
        let Ok(mut known) = self.known_numbers(self.theory.number_count()) else {
            return Err(Stop::Memory);
        };
        let again = copied(&lit);
        match self.push_asserted(lit, trail) {
            Ok(()) => self.settle_literal(again, &mut known, trail),
            Err(_) => Err(Stop::Memory),
        }
    }

    /// Asserts that the nodes at any two places differ: Closed only where no model makes all
    /// literals hold.
    pub fn assert_group<R: CarriesNodes + CarriesGroups + CarriesShare + Carries<T::Rec>>(
        &mut self,
        nodes: &[Node],
        trail: &mut Trail<R>,
    ) -> Result<State, Stop>
        requires shared { IsShared (seen T.sound T.admits T.numbers self.old) }
        requires nodes { All (λ a. a < node_count self.old.graph) nodes.now }
        ensures ends { AssertEnds (seen T.sound T.admits T.numbers self.old)
            (seen T.sound T.admits T.numbers self.new) [] (nodes.now ∷ []) result }
        ensures numbers { T.numbers self.new.theory ≡ T.numbers self.old.theory }
        ensures sound { T.sound self.new.theory }
        ensures made { AddsMade (T.made self.old.theory) (T.made self.new.theory)
            (number_terms (T.numbers self.old.theory)) }
        ensures stop { IfErr result (UnlessMemory (T.barred self.new.theory []
            (number_terms (T.numbers self.old.theory)))) }
        ensures undo { Notes (sharing_undo T.undo)
            (part_carried R.carried_node R.carried_group R.carried_share R.carried)
            trail.old.records trail.new.records self.old self.new }
    {
        match self.groups.add_group(nodes, trail) {
            Ok(()) => Ok(self.kept_apart(State::Open)),
            Err(_) => Err(Stop::Memory),
        }
    }
}

/// The same literal, for the second of two calls that take it.
fn copied(lit: &Lit) -> Lit
    ensures { result ≡ lit.now }
{
    *lit
}
