//! A branch is refined until nothing is left to do but to split.

ghost use Rattle.std.specs.Prelude.{◌≡◌, Ok};
ghost use Rattle.esc_clause.specs.Refinement.{next_split};
ghost use Rattle.esc_egraph.specs.declared.state.State.TheVariants as state;
ghost use Rattle.esc_trail.specs.Undo.{Notes};
ghost use Rattle.esc_live.specs.Calls.{Ends, GoesOn};
ghost use Rattle.esc_live.specs.LiveUndo.{live_undo};
ghost use Rattle.esc_live.specs.Promises.{IsBranch, IsGiven, IsSoundIn};
ghost use Rattle.esc_live.specs.View.{judge_on};
ghost use Rattle.esc_refine.specs.Refining.{IsQuiet, SplitsAt};

use crate::thinning::thin;
use esc_clause::{Occurrence, Refined, expansion_laws};
use esc_egraph::State;
use esc_live::{LiveBranch, LiveRec};
use esc_simplex::Stop;
use esc_trail::Trail;

/// Drops what fails from the clauses, and decides what is left alone in one, until there is none.
/// Closed only where no model makes the branch so.
pub fn refine(branch: &mut LiveBranch, trail: &mut Trail<LiveRec>) -> Result<State, Stop>
    requires branch { IsBranch branch.old }
    requires given { IsGiven branch.old }
    ensures ends { Ends branch.new (λ M. IsSoundIn M branch.old) result }
    ensures quiet { result ≡ Ok state.Open → IsQuiet branch.new }
    ensures goes_on { GoesOn branch.old branch.new }
    ensures given { IsGiven branch.new }
    ensures undo { Notes live_undo (λ rec. rec) trail.old.records trail.new.records
        branch.old branch.new }
{
    'rounds: loop {
        let Ok(told) = thin(branch, trail) else {
            return Err(Stop::Memory);
        };
        match told {
            Refined::Empty => return Ok(State::Closed),
            Refined::Quiet => return Ok(State::Open),
            Refined::Unit(at) => match branch.decide(at, true, trail)? {
                State::Open => (),
                State::Closed => return Ok(State::Closed),
            },
        }
    }
}

/// Where to split: the first item that is left of the first clause that is not satisfied; nowhere
/// where all are, and then each live fact is covered.
pub fn next_split(branch: &LiveBranch) -> Option<Occurrence>
    requires branch { IsBranch branch.now }
    requires quiet { IsQuiet branch.now }
    ensures exact { result ≡ next_split (judge_on branch.now) branch.now.clauses }
    ensures splits { SplitsAt branch.now result }
{
    expansion_laws();
    branch.clauses.next_split(&branch.judge())
}
