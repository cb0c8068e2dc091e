//! What unknowns were made for, each found by the term that it was made for.

ghost use Rattle.std.specs.Prelude.{◌≡◌, ◌↔◌, [], ◌∷◌, ◌++◌, length, IsTrue, MatchOption, OnOk, OnErr};
ghost use Rattle.esc_simplex.specs.KeyedInside.{made_key, term_key};
ghost use Rattle.esc_simplex.specs.MakingInside.{FindsTerm};

use crate::made::Made;
use esc_egraph::Node;
use esc_index::Index;
use esc_tableau::Unknown;
use esc_term::{Term, mix_term};
use sqlite_items::Items;
use std::alloc::{AllocError, Global};
use std::marker::Model;

/// What each unknown was made for, in the order of making.
#[derive(Drop)]
pub struct Entries {
    list: Items<Made>,
    index: Index,
}

impl Model for Entries {
    ghost use Rattle.std.specs.Prelude.{List};
    ghost use Rattle.std.specs.Coded.{codes};
    ghost use Rattle.esc_simplex.specs.KeyedInside.{HasKeys, made_key};
    ghost use Rattle.esc_simplex.specs.contracts.made.Made as made;
    ghost use Rattle.esc_simplex.specs.declared.made.Made.{Made};

    ghost Value = { List Made };

    ghost coded = { Prim.hlevel (codes, made.the_row.coded) };

    ghost view = { λ entries. entries.list };

    ghost invariant = { λ entries. HasKeys made_key entries.list entries.index };
}

impl Entries {
    /// No unknowns.
    pub(crate) fn new(alloc: Global) -> Entries
        ensures { result ≡ [] }
    {
        Entries {
            list: Items::new(alloc),
            index: Index::new(alloc),
        }
    }

    /// How many unknowns were made.
    pub(crate) fn len(&self) -> usize
        ensures { result ≡ length self.now }
    {
        self.list.len()
    }

    /// An unknown that was made for the term.
    pub(crate) fn unknown_for(&self, term: &Term) -> Option<Unknown>
        ensures { FindsTerm self.now term.now result }
    {
        let key = term_key(term);
        let mut end = self.index.len();
        'places: while let Some(place) = self.index.last_before(key, end) {
            if is_for(&self.list.as_slice()[place], term) {
                return Some(Unknown::numbered(place));
            }
            end = place;
        }
        None
    }

    /// Adds what an unknown is made for. Past 32 bits of unknowns it answers want of memory.
    pub(crate) fn push(&mut self, entry: Made) -> Result<(), AllocError>
        ensures ok { OnOk result (self.new ≡ self.old ++ entry ∷ []) }
        ensures err { OnErr result (self.new ≡ self.old) }
    {
        self.index.push(key_of(&entry), Node::new(0))?;
        match self.list.push(entry) {
            Ok(()) => Ok(()),
            Err(AllocError) => {
                self.index.pop();
                Err(AllocError)
            }
        }
    }

    /// Takes the newest entry away.
    pub(crate) fn pop(&mut self) -> Option<Made>
        ensures { MatchOption result ((self.old ≡ []) × (self.new ≡ []))
            (λ last. self.old ≡ self.new ++ last ∷ []) }
    {
        let Some(newest) = self.list.pop() else {
            return None;
        };
        self.index.pop();
        Some(newest)
    }
}

/// The number by which an entry is found.
fn key_of(entry: &Made) -> usize
    ensures { result ≡ made_key entry.now }
{
    match entry {
        Made::Term(term) => term_key(term),
        Made::Gap { upper, .. } => upper.number(),
    }
}

/// The number by which the entries are found that were made for a term.
#[tactic(auto, unfolding(crate::specs::KeyedInside::term_key))]
fn term_key(term: &Term) -> usize
    ensures { result ≡ term_key term.now }
{
    (mix_term(0, term) % 0x1_0000_0000) as usize
}

fn is_for(entry: &Made, term: &Term) -> bool
    ensures { IsTrue result ↔ (entry.now ≡ Made.Term term.now) }
{
    match entry {
        Made::Term(of) => is_same(of, term),
        Made::Gap { .. } => false,
    }
}

/// Whether the two are one term.
pub(crate) fn is_same(term: &Term, other: &Term) -> bool
    ensures { IsTrue result ↔ (term.now ≡ other.now) }
{
    if *term == *other { true } else { false }
}
