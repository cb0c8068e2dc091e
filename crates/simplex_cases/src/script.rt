//! Restrictions on terms with their undo stack and the marks on it.

ghost use Rattle.std.specs.Prelude.{◌≡◌, ℕ, IfOk};
ghost use Rattle.std.specs.List.{Contains};
ghost use Rattle.esc_simplex.specs.Calls.{IsForTerm};
ghost use Rattle.simplex_cases.specs.Undoable.{IsUndoable};

use crate::level::Level;
use crate::undoing::{Rec, Restrictions};
use esc_egraph::{Node, State};
use esc_frac::Frac;
use esc_simplex::{Parted, Simplex, Stop};
use esc_tableau::Unknown;
use esc_term::Term;
use esc_trail::Trail;
use std::alloc::{AllocError, Global};

/// Restrictions on terms, all of which can be taken back.
#[derive(Drop)]
pub struct Script {
    owner: Restrictions,
    trail: Trail<Rec>,
    levels: Vec<Level>,
}

impl Script {
    /// No restrictions. A maximising may take so many pivots.
    pub fn new(alloc: Global, pivots: u64) -> Script
        ensures undoable { IsUndoable result }
    {
        Script {
            owner: Restrictions {
                simplex: Simplex::new(alloc, pivots),
            },
            trail: Trail::new(alloc),
            levels: Vec::new(alloc),
        }
    }

    /// Sets a mark. How many there are then.
    pub fn mark(&mut self) -> Result<usize, AllocError>
        requires undoable { IsUndoable self.old }
        ensures undoable { IsUndoable self.new }
    {
        let level = Level {
            mark: self.trail.mark(),
            length: self.trail.len(),
        };
        self.levels.push(level)?;
        Ok(self.levels.len())
    }

    /// Takes all back that came after the newest mark, and the mark. How many there are then.
    pub fn pop(&mut self) -> Option<usize>
        requires undoable { IsUndoable self.old }
        ensures undoable { IsUndoable self.new }
    {
        let level = self.levels.pop()?;
        if level.length > self.trail.len() {
            return None;
        }
        self.trail.pop_to(level.mark, &mut self.owner);
        Some(self.levels.len())
    }

    /// An unknown for the term. Those that stood for terms before still do.
    pub fn unknown(&mut self, term: &Term) -> Result<Unknown, Stop>
        requires undoable { IsUndoable self.old }
        ensures ok { IfOk result (IsForTerm self.new.owner.simplex) }
        ensures kept { (u : ℕ) → IsForTerm self.old.owner.simplex u
            → IsForTerm self.new.owner.simplex u }
        ensures undoable { IsUndoable self.new }
    {
        self.owner.simplex.unknown(term, &mut self.trail)
    }

    /// Unknowns for two terms.
    fn unknowns_for(&mut self, first: &Term, second: &Term) -> Result<(Unknown, Unknown), Stop>
        requires undoable { IsUndoable self.old }
        ensures ok { IfOk result (λ pair. IsForTerm self.new.owner.simplex pair.0
            × IsForTerm self.new.owner.simplex pair.1) }
        ensures undoable { IsUndoable self.new }
    {
        let first = self.unknown(first)?;
        let second = self.unknown(second)?;
        Ok((first, second))
    }

    /// The unknown for the difference of two, less 1 where it is strict.
    fn gap(&mut self, upper: Unknown, lower: Unknown, strict: bool) -> Result<Unknown, Stop>
        requires undoable { IsUndoable self.old }
        requires upper { IsForTerm self.old.owner.simplex upper }
        requires lower { IsForTerm self.old.owner.simplex lower }
        ensures ok { IfOk result (Contains self.new.owner.simplex.unknowns) }
        ensures undoable { IsUndoable self.new }
    {
        self.owner
            .simplex
            .gap(upper, lower, strict, &mut self.trail)
    }

    /// Restricts the unknown to be at least 0.
    fn restrict(&mut self, unknown: Unknown) -> Result<State, Stop>
        requires undoable { IsUndoable self.old }
        requires used { Contains self.old.owner.simplex.unknowns unknown }
        ensures undoable { IsUndoable self.new }
    {
        self.owner.simplex.at_least_zero(unknown, &mut self.trail)
    }

    /// Makes two unknowns equal.
    fn unite(&mut self, first: Unknown, second: Unknown) -> Result<State, Stop>
        requires undoable { IsUndoable self.old }
        requires first { IsForTerm self.old.owner.simplex first }
        requires second { IsForTerm self.old.owner.simplex second }
        ensures undoable { IsUndoable self.new }
    {
        self.owner.simplex.equal(first, second, &mut self.trail)
    }

    /// Whether two unknowns can have different values.
    fn compare(&mut self, first: Unknown, second: Unknown) -> Result<Parted, Stop>
        requires undoable { IsUndoable self.old }
        requires first { IsForTerm self.old.owner.simplex first }
        requires second { IsForTerm self.old.owner.simplex second }
        ensures undoable { IsUndoable self.new }
    {
        self.owner.simplex.part(first, second)
    }

    /// The same, on rows that are copied before and put again.
    fn compare_apart(&mut self, first: Unknown, second: Unknown) -> Result<Parted, Stop>
        requires undoable { IsUndoable self.old }
        requires first { IsForTerm self.old.owner.simplex first }
        requires second { IsForTerm self.old.owner.simplex second }
        ensures undoable { IsUndoable self.new }
    {
        let Ok(rows) = self.owner.simplex.copy_rows() else {
            return Err(Stop::Memory);
        };
        let parted = self.owner.simplex.part(first, second);
        self.owner.simplex.put_rows(rows);
        parted
    }

    /// Gives the node the unknown, where it has none. Whether it had none.
    fn bind_unknown(&mut self, node: Node, unknown: Unknown) -> Result<bool, Stop>
        requires undoable { IsUndoable self.old }
        requires unknown { IsForTerm self.old.owner.simplex unknown }
        ensures undoable { IsUndoable self.new }
    {
        if self.owner.simplex.unknown_of(node).is_some() {
            return Ok(false);
        }
        match self.owner.simplex.bind(node, unknown, &mut self.trail) {
            Ok(()) => Ok(true),
            Err(AllocError) => Err(Stop::Memory),
        }
    }

    /// The unknown of the node.
    pub fn unknown_of(&self, node: Node) -> Option<Unknown> {
        self.owner.simplex.unknown_of(node)
    }

    /// The value of an unknown for the term.
    pub fn value(&mut self, term: &Term) -> Result<Frac, Stop>
        requires undoable { IsUndoable self.old }
        ensures undoable { IsUndoable self.new }
    {
        let unknown = self.unknown(term)?;
        Ok(self.owner.simplex.value(unknown))
    }

    /// Restricts the term to be at least 0.
    pub fn at_least_zero(&mut self, term: &Term) -> Result<State, Stop>
        requires undoable { IsUndoable self.old }
        ensures undoable { IsUndoable self.new }
    {
        let unknown = self.unknown(term)?;
        self.restrict(unknown)
    }

    /// Restricts the upper term to be at least the lower one, and 1 more where it is strict.
    pub fn order(&mut self, lower: &Term, upper: &Term, strict: bool) -> Result<State, Stop>
        requires undoable { IsUndoable self.old }
        ensures undoable { IsUndoable self.new }
    {
        let (lower, upper) = self.unknowns_for(lower, upper)?;
        let gap = self.gap(upper, lower, strict)?;
        self.restrict(gap)
    }

    /// Makes two terms equal.
    pub fn equal(&mut self, first: &Term, second: &Term) -> Result<State, Stop>
        requires undoable { IsUndoable self.old }
        ensures undoable { IsUndoable self.new }
    {
        let (first, second) = self.unknowns_for(first, second)?;
        self.unite(first, second)
    }

    /// Whether two terms can have different values.
    pub fn part(&mut self, first: &Term, second: &Term) -> Result<Parted, Stop>
        requires undoable { IsUndoable self.old }
        ensures undoable { IsUndoable self.new }
    {
        let (first, second) = self.unknowns_for(first, second)?;
        self.compare(first, second)
    }

    /// The same, with the rows that there were before the comparison put again.
    pub fn part_apart(&mut self, first: &Term, second: &Term) -> Result<Parted, Stop>
        requires undoable { IsUndoable self.old }
        ensures undoable { IsUndoable self.new }
    {
        let (first, second) = self.unknowns_for(first, second)?;
        self.compare_apart(first, second)
    }

    /// Gives the node an unknown for the term, where it has none. Whether it had none.
    pub fn bind(&mut self, node: Node, term: &Term) -> Result<bool, Stop>
        requires undoable { IsUndoable self.old }
        ensures undoable { IsUndoable self.new }
    {
        let unknown = self.unknown(term)?;
        self.bind_unknown(node, unknown)
    }
}
