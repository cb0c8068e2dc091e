//! The log.

ghost use Rattle.std.specs.Prelude.{◌≡◌, ◌≤◌, [], length, take, IfOk, OnErr};
ghost use Rattle.esc_fact.specs.Log.{IsPlaceOf, Logs};

use crate::fact::Fact;
use indexmap::IndexSet;
use std::alloc::{AllocError, Global};
use std::marker::Model;

/// The facts that were used, in order, each once. A fact is looked up by its hash.
#[derive(Drop)]
pub struct FactLog {
    facts: IndexSet<Fact>,
}

impl Model for FactLog {
    ghost use Rattle.std.specs.Prelude.{List};
    ghost use Rattle.std.specs.Coded.{codes};
    ghost use Rattle.esc_fact.specs.declared.fact.Fact.{Fact};
    ghost use Rattle.esc_fact.specs.contracts.fact.Fact as fact;

    ghost Value = { List Fact };

    ghost coded = { Prim.hlevel (codes, fact.the_row.coded) };

    ghost view = { λ log. log.facts.keys };
}

impl FactLog {
    /// A log without facts.
    pub fn new(alloc: Global) -> FactLog
        ensures { result ≡ [] }
    {
        FactLog {
            facts: IndexSet::new(alloc),
        }
    }

    /// Puts the fact at the end, unless it is there, and tells whether it was not. It fails only
    /// where memory is wanting, and then leaves the log as it was.
    pub fn add(&mut self, fact: Fact) -> Result<bool, AllocError>
        ensures ok { IfOk result (λ new. Logs self.old fact self.new new) }
        ensures err { OnErr result (self.new ≡ self.old) }
    {
        let added = self.facts.insert(fact)?;
        Ok(added)
    }

    /// The facts in their order.
    pub fn list(&self) -> &[Fact]
        ensures { result.now ≡ self.now }
    {
        self.facts.as_slice()
    }

    /// Where the fact stands, if it is there.
    pub fn place(&self, fact: &Fact) -> Option<usize>
        ensures { IsPlaceOf self.now fact.now result }
    {
        self.facts.get_index_of(fact)
    }

    /// Keeps the first facts, so many.
    pub fn cut(&mut self, len: usize)
        requires { len ≤ length self.old }
        ensures { self.new ≡ take len self.old }
    {
        self.facts.truncate(len);
    }
}
