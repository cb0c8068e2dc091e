//! Graph and theory tell each other equalities until neither has one that the other lacks.

ghost use Rattle.std.specs.Prelude.{[], IfErr};
ghost use Rattle.esc_sharing.specs.KnownInside.{AreKnownBy, AreLabeled};
ghost use Rattle.esc_sharing.specs.Numbers.{number_terms};
ghost use Rattle.esc_sharing.specs.SettlingInside.{IsUnsettled, Keeps};
ghost use Rattle.esc_sharing.specs.Calls.{StepEnds};
ghost use Rattle.esc_sharing.specs.Shared.{IsShared, seen};
ghost use Rattle.esc_sharing.specs.SharingUndo.{part_carried};
ghost use Rattle.esc_sharing.specs.Stops.{UnlessMemory};

use crate::record::CarriesShare;
use crate::sharing::Sharing;
use crate::theory::Theory;
use esc_distinct::CarriesGroups;
use esc_egraph::{CarriesNodes, Node, State};
use esc_simplex::Stop;
use esc_trail::{Carries, Trail};

impl<T: Theory> Sharing<T> {
    /// Tells the theory what the classes join, and joins what it finds equal, until neither has
    /// anything that the other lacks.
    pub(crate) fn settle<R: CarriesNodes + CarriesGroups + CarriesShare + Carries<T::Rec>>(
        &mut self,
        known: &mut [(Node, usize)],
        trail: &mut Trail<R>,
    ) -> Result<State, Stop>
        requires unsettled { IsUnsettled (seen T.sound T.admits T.numbers self.old)
            (AreKnownBy known.old) }
        requires labeled { AreLabeled (T.numbers self.old.theory) known.old }
        ensures ends { StepEnds (seen T.sound T.admits T.numbers self.new)
            (IsShared (seen T.sound T.admits T.numbers self.new)) result }
        ensures keeps { Keeps T.undo
            (part_carried R.carried_node R.carried_group R.carried_share R.carried) T.sound
            T.numbers T.made [] [] trail.old.records trail.new.records self.old self.new }
        ensures stop { IfErr result (UnlessMemory (T.barred self.new.theory []
            (number_terms (T.numbers self.old.theory)))) }
    {
        'rounds: loop {
            match self.tell_all(known, trail)? {
                State::Open => (),
                State::Closed => return Ok(State::Closed),
            }
            let found = self.theory.next_equal(&self.graph)?;
            let Some(pair) = found else {
                return Ok(State::Open);
            };
            match self.join(pair.0, pair.1, known, trail)? {
                State::Open => (),
                State::Closed => return Ok(State::Closed),
            }
        }
    }
}
