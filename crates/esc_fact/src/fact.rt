//! Facts.

ghost use Rattle.std.specs.Prelude.{◌≡◌, IfOk};

use esc_term::{Copied, Term, Terms};
use sqlite_items::Items;
use std::alloc::{AllocError, Global};

/// A formula by the way in which it is drawn from a base.
#[derive(Drop)]
pub enum Fact {
    /// A formula of the background, by its place.
    Given(u64),
    /// The negated goal.
    NegGoal,
    /// What a quantified formula brings at these terms.
    Inst {
        /// The number of the quantified formula among those of the base.
        number: u64,
        /// The terms for the variables bound around it, the outermost first.
        outer: Terms,
        /// The terms for its own variables.
        terms: Terms,
    },
    /// What a quantified formula brings at terms of its own.
    Skolem {
        /// The number of the quantified formula among those of the base.
        number: u64,
        /// The terms for the variables bound around it, the outermost first.
        outer: Terms,
    },
    /// A map, a place and a value: the map with this value at this place has it there.
    Map1(Term, Term, Term),
    /// A map, a place, a value and another place: there the map with this value has what it had.
    Map2(Term, Term, Term, Term),
}

pub type Facts = Items<Fact>;

impl Fact {
    /// The same fact. It fails only where memory is wanting.
    pub fn copy(&self, alloc: Global) -> Result<Fact, AllocError>
        ensures { IfOk result (λ c. c ≡ self.now) }
    {
        match self {
            Fact::Given(k) => Ok(Fact::Given(*k)),
            Fact::NegGoal => Ok(Fact::NegGoal),
            Fact::Inst {
                number,
                outer,
                terms,
            } => Ok(Fact::Inst {
                number: *number,
                outer: outer.copied(alloc)?,
                terms: terms.copied(alloc)?,
            }),
            Fact::Skolem { number, outer } => Ok(Fact::Skolem {
                number: *number,
                outer: outer.copied(alloc)?,
            }),
            Fact::Map1(m, i, x) => {
                Ok(Fact::Map1(m.copy(alloc)?, i.copy(alloc)?, x.copy(alloc)?))
            }
            Fact::Map2(m, i, x, j) => Ok(Fact::Map2(
                m.copy(alloc)?,
                i.copy(alloc)?,
                x.copy(alloc)?,
                j.copy(alloc)?,
            )),
        }
    }
}

impl Copied for Fact {
    fn copied(&self, alloc: Global) -> Result<Fact, AllocError> {
        self.copy(alloc)
    }
}
