//! What is looked up in the batches, and what of them is cut.

ghost use Rattle.std.specs.Prelude.{◌≡◌, ◌≢◌, [], ◌∷◌, ◌++◌, take};
ghost use Rattle.std.specs.List.{list_any};
ghost use Rattle.std.specs.Option.{is_none};
ghost use Rattle.esc_session.specs.SessionInside.{is_for};
ghost use Rattle.esc_session.specs.View.{has_closed, is_asserted, is_closed, is_open, newest_first};

use crate::batch::{Batch, Standing};
use crate::session::Session;
use esc_term::{Formulas, Sym};

impl Standing {
    fn is_asserted(&self) -> bool
        ensures { result ≡ is_asserted self.now }
    {
        matches!(self, Standing::Asserted(_))
    }

    fn is_closed(&self) -> bool
        ensures { result ≡ is_closed self.now }
    {
        matches!(self, Standing::Closed(_))
    }
}

impl Batch {
    fn is_for(&self, name: Sym, count: u64) -> bool
        ensures { result ≡ is_for name count self.now.predicate }
    {
        match self.predicate {
            Some((of, len)) => of.0 == name.0 && len == count,
            None => false,
        }
    }
}

/// Keeps the first formulas, so many.
pub(crate) fn cut_formulas(formulas: &mut Formulas, len: usize)
    ensures { formulas.new ≡ take len formulas.old }
{
    'formulas: while formulas.len() > len {
        let _ = formulas.pop();
    }
}

impl Session {
    /// Whether each formula in force is asserted, and they are not refuted.
    pub(crate) fn is_open(&self) -> bool
        ensures { result ≡ is_open (newest_first self.now) }
    {
        let batches = self.batches.as_slice();
        match batches.len() {
            0 => true,
            len => batches[len - 1].standing.is_asserted(),
        }
    }

    /// Whether the formulas in force are refuted.
    pub(crate) fn has_closed(&self) -> bool
        ensures { result ≡ has_closed self.now.batches }
    {
        'batches: for batch in self.batches.as_slice() {
            if batch.standing.is_closed() {
                return true;
            }
        }
        false
    }

    /// Whether a push is in force.
    pub(crate) fn has_push(&self) -> bool
        ensures { result ≡ list_any (λ b. is_none b.predicate) self.now.batches }
    {
        'batches: for batch in self.batches.as_slice() {
            if batch.predicate.is_none() {
                return true;
            }
        }
        false
    }

    /// Whether a rule for this name and number of arguments is in force.
    pub(crate) fn is_defined(&self, name: Sym, count: u64) -> bool
        ensures { result ≡ list_any (λ b. is_for name count b.predicate) self.now.batches }
    {
        'batches: for batch in self.batches.as_slice() {
            if batch.is_for(name, count) {
                return true;
            }
        }
        false
    }

    /// Takes the newest batch and its formulas away, and leaves the search as it is.
    pub(crate) fn take_newest(&mut self) -> Batch
        requires { self.old.batches ≢ [] }
        ensures batches { self.old.batches ≡ self.new.batches ++ result ∷ [] }
        ensures rest { self.new ≡ record self.old {
          batches = self.new.batches;
          base = record self.old.base {
            background = take result.first
                self.old.base.background;
          };
        } }
    {
        let Some(batch) = self.batches.pop() else {
            unreachable!()
        };
        cut_formulas(&mut self.base.background, batch.first);
        batch
    }
}
