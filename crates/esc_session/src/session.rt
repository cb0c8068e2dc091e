//! The session.

ghost use Rattle.std.specs.Prelude.{◌≡◌, IfOk};
ghost use Rattle.esc_answers.specs.State.{first_state};
ghost use Rattle.esc_session.specs.Between.{IsBetween};
ghost use Rattle.esc_session.specs.View.{state_of};

use crate::batch::{Batch, Batches};
use esc_fact::Base;
use esc_options::Limits;
use esc_search::Search;
use sqlite_items::Items;
use std::alloc::{AllocError, Global};

/// What is in force, and the one search that answers all goals.
#[derive(Drop)]
pub struct Session {
    pub(crate) alloc: Global,
    // the formulas in force, the oldest first; a negated goal while it is searched for
    pub(crate) base: Base,
    // what they were assumed by
    pub(crate) batches: Batches,
    // how many goals were counted
    pub(crate) goals: u64,
    pub(crate) limits: Limits,
    pub(crate) search: Search,
}

impl Session {
    /// A session in which nothing is in force. It fails only where memory is wanting.
    pub fn new(alloc: Global, limits: Limits) -> Result<Session, AllocError>
        ensures state { IfOk result (λ s. state_of s ≡ first_state) }
        ensures between { IfOk result IsBetween }
        ensures limits { IfOk result (λ s. s.limits ≡ limits) }
        ensures tally { IfOk result (λ s. s.search.tally
            ≡ record { closed = 0; left_open = 0; stopped = 0 }) }
    {
        Ok(Session {
            alloc,
            base: Base {
                background: Items::new(alloc),
                negated: None,
            },
            batches: Items::new(alloc),
            goals: 0,
            limits,
            search: Search::new(alloc, limits)?,
        })
    }

    /// How many goals were counted.
    pub fn goals(&self) -> u64
        ensures { result ≡ self.now.goals }
    {
        self.goals
    }

    /// The search by which goals are answered.
    pub fn search(&self) -> &Search
        ensures { result.now ≡ self.now.search }
    {
        &self.search
    }

    /// The pushes and rules in force, the oldest first.
    pub fn batches(&self) -> &[Batch]
        ensures { result.now ≡ self.now.batches }
    {
        self.batches.as_slice()
    }
}
