//! Batches end.

ghost use Rattle.std.specs.Prelude.{◌≡◌, ◌≢◌, [], length};
ghost use Rattle.esc_answers.specs.State.{AreRules};
ghost use Rattle.esc_search.specs.declared.search.Search.{Search as Searches};
ghost use Rattle.esc_session.specs.Acts.{Drops};
ghost use Rattle.esc_session.specs.Back.{IsAgain};
ghost use Rattle.esc_session.specs.Between.{IsBetween};
ghost use Rattle.esc_session.specs.PoppingInside.{CanEnd, DropsOne, WasBefore};
ghost use Rattle.esc_session.specs.SessionInside.{LeavesRest};
ghost use Rattle.esc_session.specs.View.{state_of};

use crate::batch::Standing;
use crate::session::Session;
use esc_search::Search;

/// Takes the search back to before a batch that stands so.
fn end_standing(search: &mut Search, standing: Standing)
    requires ends { CanEnd search.old standing }
    ensures again { (there : Searches) → WasBefore search.old standing there
        → IsAgain there search.new }
    ensures tally { search.new.tally ≡ search.old.tally }
{
    match standing {
        Standing::Asserted(level) => search.end_level(level),
        Standing::Closed(level) => search.end_level(level),
        Standing::Stopped(cause) => drop(cause),
        Standing::Behind => (),
    }
}

impl Session {
    /// Ends the newest batch, and tells whether it was a rule.
    fn drop_newest(&mut self) -> bool
        requires between { IsBetween self.old }
        requires some { self.old.batches ≢ [] }
        ensures drops { DropsOne self.old self.new result }
        ensures between { IsBetween self.new }
        ensures leaves { LeavesRest self.old self.new }
    {
        let batch = self.take_newest();
        let rule = batch.predicate.is_some();
        end_standing(&mut self.search, batch.standing);
        rule
    }

    /// Ends the newest push, and the rules behind it.
    pub(crate) fn pop(&mut self)
        requires between { IsBetween self.old }
        requires push { AreRules (state_of self.old).batches → ⊥ }
        ensures drops { Drops self.old self.new }
        ensures between { IsBetween self.new }
        ensures leaves { LeavesRest self.old self.new }
    {
        'rules: loop {
            if !self.drop_newest() {
                return;
            }
        }
    }
}
