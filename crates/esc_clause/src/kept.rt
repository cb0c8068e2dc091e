//! One clause.

ghost use Rattle.std.specs.Prelude.{◌≡◌, ◌<◌, length, IfOk};
ghost use Rattle.esc_clause.specs.ClauseContext.{new_clause};
ghost use Rattle.esc_clause.specs.ClausesUndo.{with_gone};

use crate::member::Member;
use crate::occurrence::Occurrence;
use std::alloc::{AllocError, Global};
use std::marker::Model;

/// The items of a clause, those that went among them, so that each stays at its place.
#[derive(Drop)]
pub(crate) struct Kept {
    members: Vec<Member>,
    /// Where the item stands that held last.
    hint: usize,
}

impl Model for Kept {
    ghost use Rattle.esc_clause.specs.ClauseContext.{Clause};

    ghost Value = { Clause };

    ghost view = { λ k. k.members.items };
}

impl Kept {
    /// A clause of which no item has gone. It fails only where memory is wanting.
    pub(crate) fn new(alloc: Global, items: &[Occurrence]) -> Result<Kept, AllocError>
        ensures { IfOk result (λ k. k ≡ new_clause items.now) }
    {
        let mut members = Vec::new(alloc);
        for item in items {
            members.push(Member {
                item: *item,
                gone: false,
            })?;
        }
        Ok(Kept { members, hint: 0 })
    }

    pub(crate) fn members(&self) -> &[Member]
        ensures { result.now ≡ self.now }
    {
        self.members.as_slice()
    }

    /// The place to look at first.
    pub(crate) fn hint(&self) -> usize {
        self.hint
    }

    pub(crate) fn set_hint(&mut self, place: usize)
        ensures { self.new ≡ self.old }
    {
        self.hint = place;
    }

    /// Says of the item at a place whether it has gone.
    pub(crate) fn set_gone(&mut self, place: usize, gone: bool)
        requires { place < length self.old }
        ensures { self.new ≡ with_gone self.old place gone }
    {
        let item = self.members[place].item;
        self.members[place] = Member { item, gone };
    }
}
