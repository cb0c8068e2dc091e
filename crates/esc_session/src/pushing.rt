//! Formulas are assumed.

ghost use Rattle.std.specs.Prelude.{◌≡◌, ◌≢◌, ℕ, List, [], ◌∷◌, ◌++◌, length, take};
ghost use Rattle.std.specs.Prelude.{IfOk, OnOk, OnErr, IsTrue, Option, None};
ghost use Rattle.std.specs.List.{list_all};
ghost use Rattle.esc_fact.specs.Legal.{IsClosedBase};
ghost use Rattle.esc_live.specs.Promises.{IsGiven};
ghost use Rattle.esc_search.specs.Levels.{KeepsLevels};
ghost use Rattle.esc_search.specs.Proving.{IsReady};
ghost use Rattle.esc_session.specs.Acts.{Joins, Rests};
ghost use Rattle.esc_session.specs.Back.{IsAgain};
ghost use Rattle.esc_session.specs.Between.{IsBetween};
ghost use Rattle.esc_session.specs.PushingInside.{GivesStanding, RestEnds, joined};
ghost use Rattle.esc_session.specs.SessionInside.{LeavesRest};
ghost use Rattle.esc_session.specs.declared.batch.Batch.{Batch as Batches};
ghost use Rattle.esc_term.specs.Formula.{is_closed};

use crate::batch::{Batch, Standing};
use crate::batches::cut_formulas;
use crate::session::Session;
use esc_fact::Base;
use esc_search::{Outcome, Search, search_laws};
use esc_term::{Copied, Formula, Formulas, Sym, refutation_laws};
use std::alloc::{AllocError, Global};

/// Puts copies of more formulas behind these, as far as there is memory.
fn add_copies(alloc: Global, formulas: &mut Formulas, more: &[Formula]) -> Result<(), AllocError>
    ensures all { OnOk result (formulas.new ≡ formulas.old ++ more.now) }
    ensures front { OnErr result (take (length formulas.old) formulas.new ≡ formulas.old) }
{
    'more: for formula in more {
        formulas.push(formula.copied(alloc)?)?;
    }
    Ok(())
}

/// Puts copies of more formulas behind these. It fails only where memory is wanting, and then
/// leaves them as they were.
fn add_formulas(alloc: Global, formulas: &mut Formulas, more: &[Formula]) -> Result<(), AllocError>
    ensures all { OnOk result (formulas.new ≡ formulas.old ++ more.now) }
    ensures none { OnErr result (formulas.new ≡ formulas.old) }
{
    let len = formulas.len();
    match add_copies(alloc, formulas, more) {
        Ok(()) => Ok(()),
        Err(stop) => {
            cut_formulas(formulas, len);
            Err(stop)
        }
    }
}

/// Asserts the rest of the background, up to the first answer that is not Open.
fn assert_rest(search: &mut Search, base: &Base) -> Outcome
    requires closed { IsClosedBase base.now }
    requires ready { IsReady base.now search.old }
    ensures ends { RestEnds base.now search.new result }
    ensures given { IsGiven search.new.branch }
    ensures levels { KeepsLevels search.old search.new }
    ensures limits { search.new.limits ≡ search.old.limits }
    ensures tally { search.new.tally ≡ search.old.tally }
{
    'formulas: while search.log().len() < base.background.len() {
        match search.assert_given(base) {
            Outcome::Open => {}
            outcome => return outcome,
        }
    }
    Outcome::Open
}

/// Begins a level and asserts the rest of the background in it. Where the arithmetic stops, the
/// level ends at once. It fails only where memory is wanting, and then the search is again as it
/// was.
fn stand(search: &mut Search, base: &Base) -> Result<Standing, AllocError>
    requires closed { IsClosedBase base.now }
    requires no_goal { base.now.negated ≡ None }
    requires ready { IsReady base.now search.old }
    ensures stands { IfOk result (GivesStanding base.now search.old search.new) }
    ensures again { OnErr result (IsAgain search.old search.new) }
    ensures limits { search.new.limits ≡ search.old.limits }
    ensures tally { search.new.tally ≡ search.old.tally }
{
    search_laws();
    refutation_laws();
    let level = search.begin_level()?;
    match assert_rest(search, base) {
        Outcome::Open => Ok(Standing::Asserted(level)),
        Outcome::Closed => Ok(Standing::Closed(level)),
        Outcome::Stopped(cause) => {
            search.end_level(level);
            Ok(Standing::Stopped(cause))
        }
        Outcome::Memory => {
            search.end_level(level);
            Err(AllocError)
        }
    }
}

impl Session {
    /// Puts a batch of the formulas behind the others, which waits, and asserts nothing. It fails
    /// only where memory is wanting, and then nothing changes.
    fn join(
        &mut self,
        predicate: Option<(Sym, u64)>,
        formulas: &[Formula],
    ) -> Result<(), AllocError>
        ensures joins { OnOk result (self.new ≡ joined self.old predicate formulas.now) }
        ensures none { OnErr result (self.new ≡ self.old) }
    {
        self.batches.push(Batch {
            first: self.base.background.len(),
            predicate,
            standing: Standing::Behind,
        })?;
        match add_formulas(self.alloc, &mut self.base.background, formulas) {
            Ok(()) => Ok(()),
            Err(stop) => {
                let _ = self.batches.pop();
                Err(stop)
            }
        }
    }

    /// The newest batch stands so from now on.
    fn stand_newest(&mut self, standing: Standing)
        requires { self.old.batches ≢ [] }
        ensures { (older : List Batches) (b : Batches) → self.old.batches ≡ older ++ b ∷ []
            → self.new ≡ record self.old {
              batches = older ++ record b { standing = standing } ∷ [];
            } }
    {
        let last = self.batches.len() - 1;
        let newest = &self.batches.as_slice()[last];
        let first = newest.first;
        let predicate = newest.predicate;
        self.batches.set(
            last,
            Batch {
                first,
                predicate,
                standing,
            },
        );
    }

    /// Assumes the formulas as one batch, and asserts them where nothing before them waits. It
    /// fails only where memory is wanting.
    pub(crate) fn push(
        &mut self,
        predicate: Option<(Sym, u64)>,
        formulas: Formulas,
    ) -> Result<(), AllocError>
        requires between { IsBetween self.old }
        requires closed { IsTrue (list_all is_closed formulas) }
        ensures joins { OnOk result (Joins self.old self.new predicate formulas) }
        ensures rests { OnErr result (Rests self.old self.new) }
        ensures between { IsBetween self.new }
        ensures leaves { LeavesRest self.old self.new }
    {
        search_laws();
        let open = self.is_open();
        self.join(predicate, formulas.as_slice())?;
        if !open {
            return Ok(());
        }
        match stand(&mut self.search, &self.base) {
            Ok(standing) => {
                self.stand_newest(standing);
                Ok(())
            }
            Err(stop) => {
                let _ = self.take_newest();
                Err(stop)
            }
        }
    }
}
