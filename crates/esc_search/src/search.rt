//! A search for a refutation, through the branches that splits make.

ghost use Rattle.std.specs.Prelude.{◌≡◌, ◌<◌, [], length, IfOk};
ghost use Rattle.std.specs.Option.{IsSome};
ghost use Rattle.esc_fact.specs.Fact.{formulas_of};
ghost use Rattle.esc_fact.specs.Legal.{IsClosedBase};
ghost use Rattle.esc_fact.specs.declared.base.Base.{Base as Bases};
ghost use Rattle.esc_live.specs.Promises.{IsGiven};
ghost use Rattle.esc_live.specs.View.{logged};
ghost use Rattle.esc_refine.specs.Refining.{IsQuiet};
ghost use Rattle.esc_search.specs.Levels.{KeepsLevels};
ghost use Rattle.esc_search.specs.Proving.{ComesTo, GivenEnds, IsReady, LogsGiven, tallied};
ghost use Rattle.esc_search.specs.SearchInside.{IsKept};
ghost use Rattle.esc_search.specs.declared.outcome.Outcome.TheVariants as outcome;

use crate::outcome::Outcome;
use crate::tally::Tally;
use esc_clause::Occurrence;
use esc_egraph::State;
use esc_fact::{Base, Fact, FactLog, Facts};
use esc_live::{LiveBranch, LiveRec};
use esc_options::Limits;
use esc_outcome::{Side, Sides, Splits};
use esc_sharing::Sharing;
use esc_simplex::Simplex;
use esc_term::{Copied, Formulas};
use esc_trail::Trail;
use sqlite_items::Items;
use std::alloc::{AllocError, Global};

/// The branch at hand with its undo stack, and what belongs to all branches: the log of facts, the
/// side of the tree at which each was added, and the splits.
#[derive(Drop)]
pub struct Search {
    pub(crate) alloc: Global,
    pub(crate) branch: LiveBranch,
    pub(crate) trail: Trail<LiveRec>,
    pub(crate) log: FactLog,
    pub(crate) sides: Sides,
    pub(crate) splits: Splits,
    pub(crate) under: Side,
    pub(crate) limits: Limits,
    pub(crate) tally: Tally,
}

impl Search {
    /// A search that has not begun. It fails only where memory is wanting.
    pub fn new(alloc: Global, limits: Limits) -> Result<Search, AllocError>
        ensures ready { IfOk result (λ s. (base : Bases) → IsReady base s) }
        ensures limits { IfOk result (λ s. s.limits ≡ limits) }
        ensures tally { IfOk result (λ s. s.tally
            ≡ record { closed = 0; left_open = 0; stopped = 0 }) }
    {
        Ok(Search {
            alloc,
            branch: LiveBranch::new(alloc, limits.pivots)?,
            trail: Trail::new(alloc),
            log: FactLog::new(alloc),
            sides: Items::new(alloc),
            splits: Items::new(alloc),
            under: None,
            limits,
            tally: Tally {
                closed: 0,
                left_open: 0,
                stopped: 0,
            },
        })
    }

    /// Asserts the next formula of the background, behind those that are asserted, and refines until
    /// nothing is left to do but to split.
    pub fn assert_given(&mut self, base: &Base) -> Outcome
        requires closed { IsClosedBase base.now }
        requires ready { IsReady base.now self.old }
        requires more { length self.old.log < length base.now.background }
        ensures ends { GivenEnds base.now self.new result }
        ensures quiet { result ≡ outcome.Open → IsQuiet self.new.branch }
        ensures log { LogsGiven self.old.log self.new.log result }
        ensures given { IsGiven self.new.branch }
        ensures formulas { logged self.new.branch ≡ formulas_of base.now self.new.log }
        ensures levels { KeepsLevels self.old self.new }
        ensures limits { self.new.limits ≡ self.old.limits }
        ensures tally { self.new.tally ≡ self.old.tally }
    {
        self.begin_given(base)
    }

    /// Searches for a refutation of the base, and leaves the tally.
    fn seek(&mut self, base: &Base) -> Outcome
        requires closed { IsClosedBase base.now }
        requires goal { IsSome base.now.negated }
        requires ready { IsReady base.now self.old }
        ensures comes { ComesTo base.now self.new result }
        ensures kept { IsKept base.now self.old [] self.new [] }
    {
        match self.begin(base) {
            Ok(State::Open) => self.explore(base),
            Ok(State::Closed) => Outcome::Closed,
            Err(stop) => self.stopped_by(base, stop),
        }
    }

    /// Searches for a refutation of the base, a front of whose background may be asserted already.
    pub fn prove(&mut self, base: &Base) -> Outcome
        requires closed { IsClosedBase base.now }
        requires goal { IsSome base.now.negated }
        requires ready { IsReady base.now self.old }
        ensures comes { ComesTo base.now self.new result }
        ensures given { IsGiven self.new.branch }
        ensures formulas { logged self.new.branch ≡ formulas_of base.now self.new.log }
        ensures levels { KeepsLevels self.old self.new }
        ensures limits { self.new.limits ≡ self.old.limits }
        ensures tally { self.new.tally ≡ tallied self.old.tally result }
    {
        let outcome = self.seek(base);
        self.tally.raise(&outcome);
        outcome
    }

    /// How many calls of `prove` came to each answer.
    pub fn tally(&self) -> Tally
        ensures { result ≡ self.now.tally }
    {
        self.tally
    }

    /// The facts that were used, in order.
    pub fn log(&self) -> &[Fact]
        ensures { result.now ≡ self.now.log }
    {
        self.log.list()
    }

    /// The side of the tree at which each of them was added.
    pub fn sides(&self) -> &[Side]
        ensures { result.now ≡ self.now.sides }
    {
        self.sides.as_slice()
    }

    /// The literals of the branch at hand, as occurrences, in the order in which they were
    /// asserted.
    pub fn literals(&self) -> &[Occurrence]
        ensures { result.now ≡ self.now.branch.literals }
    {
        self.branch.literals.as_slice()
    }

    /// What the literals of the branch at hand come to.
    pub fn sharing(&self) -> &Sharing<Simplex>
        ensures { result.now ≡ self.now.branch.sharing }
    {
        &self.branch.sharing
    }

    /// The branch at hand.
    pub fn branch(&self) -> &LiveBranch
        ensures { result.now ≡ self.now.branch }
    {
        &self.branch
    }

    /// The facts of the log and their formulas. It fails only where memory is wanting.
    pub fn used(&self) -> Result<(Facts, Formulas), AllocError>
        ensures { IfOk result (λ pair. (pair.0 ≡ self.now.log)
            × (pair.1 ≡ logged self.now.branch)) }
    {
        let facts = self.facts()?;
        let formulas = self.branch.book.formulas().copied(self.alloc)?;
        Ok((facts, formulas))
    }

    /// Ends the search, and gives the facts of its log and their formulas. It fails only where
    /// memory is wanting.
    pub fn into_log(self) -> Result<(Facts, Formulas), AllocError>
        ensures { IfOk result (λ pair. (pair.0 ≡ self.log) × (pair.1 ≡ logged self.branch)) }
    {
        let facts = self.facts()?;
        Ok((facts, self.into_formulas()))
    }

    /// The formulas of the log, which are moved out.
    fn into_formulas(self) -> Formulas
        ensures { result ≡ logged self.branch }
    {
        let Search {
            alloc: _,
            branch,
            trail: _,
            log: _,
            sides: _,
            splits: _,
            under: _,
            limits: _,
            tally: _,
        } = self;
        let LiveBranch {
            sharing: _,
            clauses: _,
            book,
            literals: _,
            alloc: _,
        } = branch;
        book.into_formulas()
    }
}
