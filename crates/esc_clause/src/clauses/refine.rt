//! Going through the clauses.

ghost use Rattle.std.specs.Prelude.{◌≡◌, ◌+◌, ◌<◌, ◌≤◌, [], ◌∷◌, false, true, length, OnOk, OnErr};
ghost use Rattle.std.specs.Prelude.{IfOk};
ghost use Rattle.esc_trail.specs.Undo.{Notes};
ghost use Rattle.esc_clause.specs.ClausesUndo.{clauses_undo, member_at, with_gone};
ghost use Rattle.esc_clause.specs.PassesInside.{clause_at, with_clause, waiting_of, joined};
ghost use Rattle.esc_clause.specs.Refinement.{IsLighter, judged_by, lightened, lighter, refined};
ghost use Rattle.esc_clause.specs.Refinement.{refined_among, thinned};

use crate::clauses::Clauses;
use crate::clauses::look::Look;
use crate::judge::Judge;
use crate::record::ClauseRec;
use crate::truth::Refined;
use esc_trail::{Carries, Trail};
use std::alloc::AllocError;

/// What clauses come to with others behind them.
fn joined(here: Refined, there: Refined) -> Refined
    ensures { result ≡ joined here there }
{
    match here {
        Refined::Empty => Refined::Empty,
        Refined::Quiet => there,
        Refined::Unit(item) => match there {
            Refined::Empty => Refined::Empty,
            _ => Refined::Unit(item),
        },
    }
}

impl Clauses {
    /// Takes an item that is left out of a clause, and notes it.
    fn drop_item<R: Carries<ClauseRec>>(&mut self, at: usize, place: usize, trail: &mut Trail<R>)
        requires there { at < length self.old.clauses }
        requires within { place < length (clause_at self.old at) }
        requires left { (member_at (clause_at self.old at) place).gone ≡ false }
        requires room { 0 < trail.old.spare }
        ensures dropped { self.new
            ≡ with_clause self.old at (with_gone (clause_at self.old at) place true) }
        ensures spare { trail.old.spare ≤ trail.new.spare + 1 }
        ensures undo { Notes clauses_undo R.carried trail.old.records trail.new.records
            self.old self.new }
    {
        self.clauses[at].set_gone(place, true);
        trail.note(R::carry(ClauseRec::Dropped { at, place }));
    }

    /// Drops each item of a clause that fails.
    fn drop_failing<J: Judge, R: Carries<ClauseRec>>(
        &mut self,
        judge: &J,
        at: usize,
        trail: &mut Trail<R>,
    ) -> Result<(), AllocError>
        requires there { at < length self.old.clauses }
        requires ready { J.ready judge.now }
        ensures ok { OnOk result (self.new ≡ with_clause self.old at
            (thinned (judged_by (J.judged judge.now) self.old.decisions) (clause_at self.old at))) }
        ensures err { OnErr result (self.new ≡ self.old) }
        ensures undo { Notes clauses_undo R.carried trail.old.records trail.new.records
            self.old self.new }
    {
        let count = self.members(at).len();
        trail.reserve(count)?;
        'members: for place in 0..count {
            let member = self.members(at)[place];
            if self.fails(judge, member) {
                self.drop_item(at, place, trail);
            }
        }
        Ok(())
    }

    /// What one clause comes to. Where it is not satisfied, the items that fail are dropped.
    fn settle<J: Judge, R: Carries<ClauseRec>>(
        &mut self,
        judge: &J,
        at: usize,
        trail: &mut Trail<R>,
    ) -> Result<Refined, AllocError>
        requires there { at < length self.old.clauses }
        requires ready { J.ready judge.now }
        ensures exact { IfOk result (λ r. r
            ≡ refined_among (waiting_of (judged_by (J.judged judge.now) self.old.decisions)
            (clause_at self.old at ∷ []))) }
        ensures ok { OnOk result (self.new ≡ with_clause self.old at
            (lightened (judged_by (J.judged judge.now) self.old.decisions)
            (clause_at self.old at))) }
        ensures err { OnErr result (self.new ≡ self.old) }
        ensures undo { Notes clauses_undo R.carried trail.old.records trail.new.records
            self.old self.new }
    {
        match self.look(judge, at) {
            Look::Satisfied(place) => {
                self.clauses[at].set_hint(place);
                Ok(Refined::Quiet)
            }
            Look::Failing(told) => {
                self.drop_failing(judge, at, trail)?;
                Ok(told)
            }
            Look::Waiting(told) => Ok(told),
        }
    }

    /// What the clauses come to, by the decisions and by the judge. The items that fail are dropped
    /// from each clause that is not satisfied, up to the first of which no item is left. It fails
    /// only where memory is wanting, and then some clauses were gone through, from the front on.
    pub fn refine<J: Judge, R: Carries<ClauseRec>>(
        &mut self,
        judge: &J,
        trail: &mut Trail<R>,
    ) -> Result<Refined, AllocError>
        requires ready { J.ready judge.now }
        ensures exact { IfOk result (λ r. r ≡ refined (J.judged judge.now) self.old) }
        ensures ok { OnOk result (self.new ≡ lighter (J.judged judge.now) self.old) }
        ensures err { OnErr result (IsLighter (J.judged judge.now) self.old self.new) }
        ensures undo { Notes clauses_undo R.carried trail.old.records trail.new.records
            self.old self.new }
    {
        let mut told = Refined::Quiet;
        'clauses: for at in 0..self.clauses.len() {
            let here = self.settle(judge, at, trail)?;
            told = joined(told, here);
            if here.is_empty() {
                return Ok(told);
            }
        }
        Ok(told)
    }
}
