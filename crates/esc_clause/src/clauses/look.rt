//! Looking at clauses.

ghost use Rattle.std.specs.Prelude.{◌≡◌, ◌<◌, true, length};
ghost use Rattle.std.specs.Bool.{OnTrue};
ghost use Rattle.esc_clause.specs.ClauseContext.{items_left};
ghost use Rattle.esc_clause.specs.PassesInside.{LookTells, clause_at, is_failing, stays};
ghost use Rattle.esc_clause.specs.Refinement.{judged_by, is_satisfied, left_of, first, next_split};

use crate::clauses::Clauses;
use crate::judge::Judge;
use crate::member::Member;
use crate::occurrence::Occurrence;
use crate::truth::{Refined, Truth};

/// What a look at a clause tells.
#[derive(Clone, Copy)]
pub(crate) enum Look {
    /// The item at this place has its sign.
    Satisfied(usize),
    /// No item has its sign, and some fails; what the clause comes to.
    Failing(Refined),
    /// No item has its sign, and none fails; what the clause comes to.
    Waiting(Refined),
}

impl Clauses {
    /// What the decisions say of an item, or else the judge.
    fn judge<J: Judge>(&self, judge: &J, item: Occurrence) -> Truth
        requires ready { J.ready judge.now }
        ensures { result ≡ judged_by (J.judged judge.now) self.now.decisions item }
    {
        self.decisions.judge(judge, item)
    }

    /// Whether the item is left and fails.
    pub(crate) fn fails<J: Judge>(&self, judge: &J, member: Member) -> bool
        requires ready { J.ready judge.now }
        ensures { result ≡ is_failing (judged_by (J.judged judge.now) self.now.decisions) member }
    {
        !member.gone && self.judge(judge, member.item).is_no()
    }

    /// Whether the item is left and does not fail.
    fn stays<J: Judge>(&self, judge: &J, member: Member) -> bool
        requires ready { J.ready judge.now }
        ensures { result ≡ stays (judged_by (J.judged judge.now) self.now.decisions) member }
    {
        !member.gone && !self.judge(judge, member.item).is_no()
    }

    /// Looks at each item that is left, in order.
    fn scan<J: Judge>(&self, judge: &J, members: &[Member]) -> Look
        requires ready { J.ready judge.now }
        ensures { LookTells (judged_by (J.judged judge.now) self.now.decisions) members.now result }
    {
        let mut told = Refined::Empty;
        let mut failing = false;
        'members: for place in 0..members.len() {
            let member = members[place];
            if !member.gone {
                match self.judge(judge, member.item) {
                    Truth::Yes => return Look::Satisfied(place),
                    Truth::No => failing = true,
                    Truth::Open => told = told.with(member.item),
                }
            }
        }
        if failing {
            Look::Failing(told)
        } else {
            Look::Waiting(told)
        }
    }

    /// The items of a clause, those that went among them.
    pub(crate) fn members(&self, at: usize) -> &[Member]
        requires { at < length self.now.clauses }
        ensures { result.now ≡ clause_at self.now at }
    {
        self.clauses[at].members()
    }

    /// Whether the item that held last is left and has its sign.
    fn still_holds<J: Judge>(&self, judge: &J, members: &[Member], hint: usize) -> bool
        requires ready { J.ready judge.now }
        ensures { OnTrue result (is_satisfied (judged_by (J.judged judge.now) self.now.decisions)
            (items_left members.now) ≡ true) }
    {
        if hint >= members.len() {
            return false;
        }
        let member = members[hint];
        if member.gone {
            return false;
        }
        self.judge(judge, member.item).is_yes()
    }

    /// Looks at a clause, first at the item that held last.
    pub(crate) fn look<J: Judge>(&self, judge: &J, at: usize) -> Look
        requires there { at < length self.now.clauses }
        requires ready { J.ready judge.now }
        ensures { LookTells (judged_by (J.judged judge.now) self.now.decisions)
            (clause_at self.now at) result }
    {
        let hint = self.clauses[at].hint();
        let members = self.members(at);
        if self.still_holds(judge, members, hint) {
            return Look::Satisfied(hint);
        }
        self.scan(judge, members)
    }

    /// The first item that is left and does not fail.
    fn first_left<J: Judge>(&self, judge: &J, members: &[Member]) -> Option<Occurrence>
        requires ready { J.ready judge.now }
        ensures { result ≡ first (left_of (judged_by (J.judged judge.now) self.now.decisions)
            (items_left members.now)) }
    {
        'members: for place in 0..members.len() {
            let member = members[place];
            if self.stays(judge, member) {
                return Some(member.item);
            }
        }
        None
    }

    /// Whether an item of a clause has its sign.
    fn is_satisfied<J: Judge>(&self, judge: &J, at: usize) -> bool
        requires there { at < length self.now.clauses }
        requires ready { J.ready judge.now }
        ensures { result ≡ is_satisfied (judged_by (J.judged judge.now) self.now.decisions)
            (items_left (clause_at self.now at)) }
    {
        match self.look(judge, at) {
            Look::Satisfied(_) => true,
            Look::Failing(_) => false,
            Look::Waiting(_) => false,
        }
    }

    /// The first item that is left of the first clause that is not satisfied, by the decisions and
    /// by the judge. There is none exactly where each clause is satisfied, if each that is not has
    /// an item left.
    pub fn next_split<J: Judge>(&self, judge: &J) -> Option<Occurrence>
        requires ready { J.ready judge.now }
        ensures { result ≡ next_split (J.judged judge.now) self.now }
    {
        'clauses: for at in 0..self.clauses.len() {
            if !self.is_satisfied(judge, at) {
                return self.first_left(judge, self.members(at));
            }
        }
        None
    }
}
