//! What is kept of a search that stops.

ghost use Rattle.std.specs.Prelude.{◌≡◌, IfOk, IsTrue};
ghost use Rattle.esc_fact.specs.declared.base.Base.{Base as Bases};
ghost use Rattle.esc_live.specs.View.{literals_on};
ghost use Rattle.esc_outcome.specs.Causes.{is_endless, is_overflow};
ghost use Rattle.esc_outcome.specs.JamLaws.{stuck_with};
ghost use Rattle.esc_search.specs.Proving.{ComesTo, IsOfArithmetic, IsStopped, branch_of};
ghost use Rattle.esc_search.specs.Proving.{live_facts};
ghost use Rattle.esc_search.specs.declared.search.Search.{Search as Searches};
ghost use Rattle.esc_search.specs.SearchInside.{HaltsUnlessMemory, IsArithmeticStop, IsHalted};

use crate::outcome::Outcome;
use crate::search::Search;
use esc_fact::{Base, Facts};
use esc_outcome::{Branch, Stuck, stuck_of};
use esc_simplex::Stop;
use esc_term::Copied;
use esc_verdict::Cause;
use sqlite_items::Items;
use std::alloc::AllocError;

impl Search {
    /// The facts of the log. It fails only where memory is wanting.
    pub(crate) fn facts(&self) -> Result<Facts, AllocError>
        ensures { IfOk result (λ facts. facts ≡ self.now.log) }
    {
        let mut facts = Items::new(self.alloc);
        'facts: for fact in self.log.list() {
            facts.push(fact.copied(self.alloc)?)?;
        }
        Ok(facts)
    }

    /// The facts that are live on the branch at hand, in the order in which they became live. It
    /// fails only where memory is wanting.
    pub fn live(&self) -> Result<Facts, AllocError>
        ensures { IfOk result (λ facts. facts ≡ live_facts self.now) }
    {
        let mut facts = Items::new(self.alloc);
        'places: for place in self.branch.book.live() {
            if let Some(fact) = self.log.list().get(*place) {
                facts.push(fact.copied(self.alloc)?)?;
            }
        }
        Ok(facts)
    }

    /// The branch at hand. It fails only where memory is wanting.
    pub(crate) fn kept(&self) -> Result<Branch, AllocError>
        ensures { IfOk result (λ branch. branch ≡ branch_of self.now) }
    {
        let log = self.facts()?;
        let sides = Items::from_slice(self.alloc, self.sides.as_slice())?;
        let splits = Items::from_slice(self.alloc, self.splits.as_slice())?;
        Ok(Branch {
            log,
            sides,
            splits,
            under: self.under,
        })
    }

    /// How the arithmetic is stuck. It fails only where memory is wanting.
    fn stuck(&self, base: &Base, stop: Stop) -> Result<Stuck, AllocError>
        requires { IsHalted base.now self.now stop }
        ensures { IfOk result (λ stuck. stuck
            ≡ stuck_with self.now.branch.sharing stop (literals_on self.now.branch)) }
    {
        let _base = base;
        let literals = self.branch.items()?;
        stuck_of(self.alloc, &self.branch.sharing, stop, &literals)
    }

    /// What is told where a step of the arithmetic does not fit.
    fn overflowed(&self, base: &Base, stop: Stop) -> Result<Cause, AllocError>
        requires halted { IsHalted base.now self.now stop }
        requires overflow { IsTrue (is_overflow stop) }
        ensures stopped { IfOk result (IsStopped base.now self.now) }
        ensures arithmetic { IfOk result IsOfArithmetic }
    {
        let branch = self.kept()?;
        let stuck = self.stuck(base, stop)?;
        Ok(Cause::Overflow(branch, stuck))
    }

    /// What is told where a maximising takes too many pivots.
    fn unended(&self, base: &Base, stop: Stop) -> Result<Cause, AllocError>
        requires halted { IsHalted base.now self.now stop }
        requires endless { IsTrue (is_endless stop) }
        ensures stopped { IfOk result (IsStopped base.now self.now) }
        ensures arithmetic { IfOk result IsOfArithmetic }
    {
        let branch = self.kept()?;
        let stuck = self.stuck(base, stop)?;
        Ok(Cause::Pivots(branch, stuck))
    }

    /// What is answered where the arithmetic stopped.
    pub(crate) fn stopped_by(&self, base: &Base, stop: Stop) -> Outcome
        requires { HaltsUnlessMemory base.now self.now stop }
        ensures comes { ComesTo base.now self.now result }
        ensures arithmetic { IsArithmeticStop result }
    {
        match stop {
            Stop::Memory => Outcome::Memory,
            Stop::Pivots(jam) => answered(self.unended(base, Stop::Pivots(jam))),
            Stop::Spill(jam) => answered(self.overflowed(base, Stop::Spill(jam))),
            Stop::Form(term) => answered(self.overflowed(base, Stop::Form(term))),
        }
    }
}

/// The cause, or want of memory.
pub(crate) fn answered(cause: Result<Cause, AllocError>) -> Outcome
    ensures comes { (base : Bases) (s : Searches) → IfOk cause (IsStopped base s)
        → ComesTo base s result }
    ensures arithmetic { IfOk cause IsOfArithmetic → IsArithmeticStop result }
{
    match cause {
        Ok(cause) => Outcome::Stopped(cause),
        Err(_) => Outcome::Memory,
    }
}
