//! The terms of a formula come in play.

ghost use Rattle.std.specs.Prelude.{◌≡◌, IfErr, IsTrue};
ghost use Rattle.esc_term.specs.Formula.{is_closed};
ghost use Rattle.esc_trail.specs.Undo.{Notes};
ghost use Rattle.esc_simplex.specs.SimplexUndo.{simplex_undo};
ghost use Rattle.esc_simplex.specs.View.{IsSimplex, senses_in};
ghost use Rattle.esc_sharing.specs.Shared.{IsShared};
ghost use Rattle.esc_sharing.specs.SharingUndo.{part_carried, sharing_undo};
ghost use Rattle.esc_sharing.specs.Stops.{UnlessMemory};
ghost use Rattle.esc_outcome.specs.JamLaws.{shared_in};
ghost use Rattle.esc_play.specs.Play.{GivesMore, HasMore, PlayEnds, StopsPlay};

use crate::walk::add_formula;
use esc_distinct::CarriesGroups;
use esc_egraph::{CarriesNodes, State};
use esc_sharing::{CarriesShare, Sharing};
use esc_simplex::{Simplex, SimplexRec, Stop};
use esc_term::Formula;
use esc_trail::{Carries, Trail};
use std::alloc::Global;

/// Puts the terms of a closed formula in play, outside quantified ones, and makes those arithmetic
/// that it makes so: numerals, sums, differences and products with what they are made of, and the
/// sides of orders. Closed only where no model makes all literals hold. An error is why it stopped.
pub fn put_in_play<R: CarriesNodes + CarriesGroups + CarriesShare + Carries<SimplexRec>>(
    alloc: Global,
    sharing: &mut Sharing<Simplex>,
    formula: &Formula,
    trail: &mut Trail<R>,
) -> Result<State, Stop>
    requires shared { IsShared (shared_in sharing.old) }
    requires closed { IsTrue (is_closed formula.now) }
    ensures ends { PlayEnds (shared_in sharing.old) (shared_in sharing.new) formula.now result }
    ensures given { GivesMore sharing.old.theory sharing.new.theory formula.now }
    ensures sound { IsSimplex sharing.new.theory }
    ensures means { HasMore (senses_in sharing.old.theory) (senses_in sharing.new.theory) }
    ensures limit { sharing.new.theory.limit ≡ sharing.old.theory.limit }
    ensures stop { IfErr result
        (UnlessMemory (StopsPlay sharing.old sharing.new formula.now)) }
    ensures undo { Notes (sharing_undo simplex_undo)
        (part_carried R.carried_node R.carried_group R.carried_share R.carried)
        trail.old.records trail.new.records sharing.old sharing.new }
{
    let mut numbers = Vec::new(alloc);
    let Ok(()) = add_formula(sharing, formula, &mut numbers, trail) else {
        return Err(Stop::Memory);
    };
    numbers.sort_unstable_by_key(|number| number.index());
    sharing.make_arithmetic(numbers.as_slice(), trail)
}
