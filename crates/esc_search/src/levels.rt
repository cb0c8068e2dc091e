//! Levels begin and end.

ghost use Rattle.std.specs.Prelude.{◌≡◌, take, IfOk};
ghost use Rattle.esc_fact.specs.declared.base.Base.{Base as Bases};
ghost use Rattle.esc_live.specs.Promises.{IsBranch, IsGiven};
ghost use Rattle.esc_search.specs.Levels.{CanReturn, GoesBackTo, IsBackAt, IsBegunAt};
ghost use Rattle.esc_search.specs.Proving.{IsReady};
ghost use Rattle.esc_search.specs.declared.search.Search.{Search as Searches};

use crate::level::Level;
use crate::search::Search;
use esc_live::live_laws;
use esc_outcome::{Sides, Splits};
use std::alloc::AllocError;

impl Search {
    /// Begins a level, to which the search can go back. It fails only where memory is wanting.
    pub fn begin_level(&self) -> Result<Level, AllocError>
        requires branch { IsBranch self.now.branch }
        requires given { IsGiven self.now.branch }
        ensures begun { IfOk result (λ level. IsBegunAt level self.now) }
        ensures returns { IfOk result (CanReturn self.now) }
    {
        let rows = self.branch.sharing.copy_rows()?;
        Ok(Level {
            mark: self.trail.mark(),
            rows,
            formulas: self.branch.book.formulas().len(),
            facts: self.log.list().len(),
            sides: self.sides.len(),
            splits: self.splits.len(),
            under: self.under,
        })
    }

    /// Ends a level, and all that began after it: the search is as it was where the level began.
    pub fn end_level(&mut self, level: Level)
        requires returns { CanReturn self.old level }
        ensures back { IsBackAt level self.old self.new }
        ensures ready { (base : Bases) (t : Searches) → IsBegunAt level t → GoesBackTo self.old t
            → IsReady base t → IsReady base self.new }
        ensures branch { IsBranch self.new.branch }
        ensures given { IsGiven self.new.branch }
        ensures tally { self.new.tally ≡ self.old.tally }
    {
        live_laws();
        self.trail.pop_to(level.mark, &mut self.branch);
        self.branch.sharing.put_rows(level.rows);
        self.branch.book.cut(level.formulas);
        self.log.cut(level.facts);
        cut_sides(&mut self.sides, level.sides);
        cut_splits(&mut self.splits, level.splits);
        self.under = level.under;
    }
}

/// Keeps the first sides, so many.
fn cut_sides(sides: &mut Sides, len: usize)
    ensures { sides.new ≡ take len sides.old }
{
    'sides: while sides.len() > len {
        let _ = sides.pop();
    }
}

/// Keeps the first splits, so many.
fn cut_splits(splits: &mut Splits, len: usize)
    ensures { splits.new ≡ take len splits.old }
{
    'splits: while splits.len() > len {
        let _ = splits.pop();
    }
}
