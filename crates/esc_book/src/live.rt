//! The places of live facts, each found at once.

ghost use Rattle.std.specs.Prelude.{◌≡◌, ◌↔◌, [], ◌∷◌, ◌++◌, ◌-◌, length, take, nat_eq};
ghost use Rattle.std.specs.Prelude.{IsTrue, OnOk, OnErr};
ghost use Rattle.std.specs.HashMap.{get};
ghost use Rattle.std.specs.Option.{is_some};
ghost use Rattle.esc_book.specs.LiveInside.{place_from};

use std::alloc::{AllocError, Global};
use std::collections::HashMap;
use std::marker::Model;

/// Places in a log, in order, and where each stands first.
#[derive(Drop)]
pub(crate) struct Live {
    list: Vec<usize>,
    first: HashMap<usize, usize>,
}

impl Model for Live {
    ghost use Rattle.std.specs.Prelude.{ℕ, List};
    ghost use Rattle.esc_book.specs.LiveInside.{IsIndexed};

    ghost Value = { List ℕ };

    ghost view = { λ live. live.list.items };

    ghost invariant = { IsIndexed };
}

impl Live {
    /// No places.
    pub(crate) fn new(alloc: Global) -> Live
        ensures { result ≡ [] }
    {
        Live {
            list: Vec::new(alloc),
            first: HashMap::new(alloc),
        }
    }

    /// The places in order.
    pub(crate) fn list(&self) -> &[usize]
        ensures { result.now ≡ self.now }
    {
        self.list.as_slice()
    }

    /// Where a place stands first.
    pub(crate) fn find(&self, place: usize) -> Option<usize>
        ensures { result ≡ place_from 0 self.now place }
    {
        match self.first.get(&place) {
            Some(found) => Some(*found),
            None => None,
        }
    }

    /// Puts a place at the end. It fails only where memory is wanting.
    pub(crate) fn push(&mut self, place: usize) -> Result<(), AllocError>
        ensures ok { OnOk result (self.new ≡ self.old ++ place ∷ []) }
        ensures err { OnErr result (self.new ≡ self.old) }
    {
        self.list.reserve(1)?;
        let at = self.list.len();
        if !has_key(&self.first, place) {
            self.first.insert(place, at)?;
        }
        match self.list.push(place) {
            Ok(()) => Ok(()),
            Err(_) => unreachable!(),
        }
    }

    /// Takes the last place away.
    pub(crate) fn pop(&mut self)
        ensures { self.new ≡ take (length self.old - 1) self.old }
    {
        let Some(place) = self.list.pop() else {
            return;
        };
        if leads_to(&self.first, place, self.list.len()) {
            let _ = self.first.remove(&place);
        }
    }
}

/// Whether a place is known.
fn has_key(first: &HashMap<usize, usize>, key: usize) -> bool
    ensures { result ≡ is_some (get nat_eq first.now key) }
{
    match first.get(&key) {
        Some(_) => true,
        None => false,
    }
}

/// Whether a place stands first at another.
fn leads_to(first: &HashMap<usize, usize>, key: usize, at: usize) -> bool
    ensures { IsTrue result ↔ (get nat_eq first.now key ≡ Some at) }
{
    match first.get(&key) {
        Some(found) => *found == at,
        None => false,
    }
}
