//! The decisions, each found by its occurrence.

ghost use Rattle.std.specs.Prelude.{◌≡◌, [], ◌∷◌, ◌++◌, ◌-◌, length, take, OnOk, OnErr};
ghost use Rattle.std.specs.Prelude.{MatchOption, IsTrue, ◌↔◌};
ghost use Rattle.std.specs.HashMap.{get};
ghost use Rattle.std.specs.Option.{is_some};
ghost use Rattle.esc_clause.specs.DecisionsInside.{same_key};
ghost use Rattle.esc_clause.specs.Refinement.{by_decision, judged_by};

use crate::decision::Decision;
use crate::judge::Judge;
use crate::occurrence::Occurrence;
use crate::truth::Truth;
use std::alloc::{AllocError, Global};
use std::collections::HashMap;
use std::marker::Model;

/// The decisions in order, and where the first one on each occurrence stands.
#[derive(Drop)]
pub(crate) struct Decisions {
    list: Vec<Decision>,
    first: HashMap<(u64, u64), usize>,
}

impl Model for Decisions {
    ghost use Rattle.std.specs.Prelude.{List};
    ghost use Rattle.esc_clause.specs.declared.decision.Decision.{Decision};
    ghost use Rattle.esc_clause.specs.DecisionsInside.{IsIndexed};

    ghost Value = { List Decision };

    ghost view = { λ d. d.list.items };

    ghost invariant = { IsIndexed };
}

impl Decisions {
    /// No decisions.
    pub(crate) fn new(alloc: Global) -> Decisions
        ensures { result ≡ [] }
    {
        Decisions {
            list: Vec::new(alloc),
            first: HashMap::new(alloc),
        }
    }

    /// Puts a decision at the end. It fails only where memory is wanting.
    pub(crate) fn push(&mut self, decision: Decision) -> Result<(), AllocError>
        ensures ok { OnOk result (self.new ≡ self.old ++ decision ∷ []) }
        ensures err { OnErr result (self.new ≡ self.old) }
    {
        self.list.reserve(1)?;
        let place = self.list.len();
        let key = (decision.at.fact, decision.at.place);
        if !has_key(&self.first, key) {
            self.first.insert(key, place)?;
        }
        match self.list.push(decision) {
            Ok(()) => Ok(()),
            Err(_) => unreachable!(),
        }
    }

    /// Takes the last decision away.
    pub(crate) fn pop(&mut self)
        ensures { self.new ≡ take (length self.old - 1) self.old }
    {
        let Some(decision) = self.list.pop() else {
            return;
        };
        let key = (decision.at.fact, decision.at.place);
        if leads_to(&self.first, key, self.list.len()) {
            let _ = self.first.remove(&key);
        }
    }

    /// What the decisions say of an item, or else the judge.
    pub(crate) fn judge<J: Judge>(&self, judge: &J, item: Occurrence) -> Truth
        requires ready { J.ready judge.now }
        ensures { result ≡ judged_by (J.judged judge.now) self.now item }
    {
        match self.first.get(&(item.fact, item.place)) {
            Some(place) => by_decision(self.list[*place], item),
            None => judge.judge(item),
        }
    }
}

/// Whether an occurrence was decided.
fn has_key(first: &HashMap<(u64, u64), usize>, key: (u64, u64)) -> bool
    ensures { result ≡ is_some (get same_key first.now key) }
{
    match first.get(&key) {
        Some(_) => true,
        None => false,
    }
}

/// Whether the first decision on an occurrence stands at this place.
fn leads_to(first: &HashMap<(u64, u64), usize>, key: (u64, u64), place: usize) -> bool
    ensures { IsTrue result ↔ (get same_key first.now key ≡ Some place) }
{
    match first.get(&key) {
        Some(found) => *found == place,
        None => false,
    }
}

/// Whether an item has its sign by a decision on its occurrence.
fn by_decision(decision: Decision, item: Occurrence) -> Truth
    ensures { result ≡ by_decision decision item }
{
    if decision.holds == (decision.at.positive == item.positive) {
        Truth::Yes
    } else {
        Truth::No
    }
}
