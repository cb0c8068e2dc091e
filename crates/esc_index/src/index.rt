ghost use Rattle.std.specs.Prelude.{◌≡◌, ℕ, ◌+◌, ◌-◌, ◌<◌, ◌≤◌, [], ◌∷◌, ◌++◌, length, take, OnOk, OnErr, IfSome, IfNone};
ghost use Rattle.esc_index.specs.Places.{entry_at, HasNone, IsLastBefore};

use crate::threads::{last_place, widen};
use esc_union::{Node, narrow};
use std::alloc::{AllocError, Global};
use std::marker::Model;

/// Keys with their nodes in the order of adding, for each bucket of keys one more than its last
/// place, or 0, and for each place the same of those before it. All are held in 32 bits.
#[derive(Drop)]
pub struct Index {
    alloc: Global,
    entries: Vec<(u32, u32)>,
    heads: Vec<u32>,
    next: Vec<u32>,
}

impl Model for Index {
    ghost use Rattle.std.specs.Prelude.{ℕ, List};

    ghost Value = { List (ℕ × ℕ) };

    ghost use Rattle.esc_index.specs.IndexInside.{entries_of, IsSound};

    ghost view = { entries_of };

    ghost invariant = { IsSound };
}

impl Index {
    /// No keys.
    pub fn new(alloc: Global) -> Index
        ensures { result ≡ [] }
    {
        Index {
            alloc,
            entries: Vec::new(alloc),
            heads: Vec::new(alloc),
            next: Vec::new(alloc),
        }
    }

    /// How many keys were added.
    pub fn len(&self) -> usize
        ensures { result ≡ length self.now }
    {
        self.entries.len()
    }

    /// The node at a place.
    pub fn node(&self, place: usize) -> Node
        requires { place < length self.now }
        ensures { result ≡ (entry_at self.now place).1 }
    {
        Node::new(self.entries[place].1 as usize)
    }

    /// The last place before `end` that has the key, where `end` is the end or has the key.
    pub fn last_before(&self, key: usize, end: usize) -> Option<usize>
        requires bound { end ≤ length self.now }
        requires has { end < length self.now → (entry_at self.now end).0 ≡ key }
        ensures some { IfSome result (λ p. IsLastBefore self.now key end p) }
        ensures none { IfNone result (HasNone self.now key 0 end) }
    {
        last_place(
            self.entries.as_slice(),
            self.heads.as_slice(),
            self.next.as_slice(),
            key,
            end,
        )
    }

    /// Adds a key with its node. Where one of them does not fit into 32 bits it answers want of
    /// memory.
    pub fn push(&mut self, key: usize, node: Node) -> Result<(), AllocError>
        ensures ok { OnOk result (self.new ≡ self.old ++ (key, node) ∷ []) }
        ensures err { OnErr result (self.new ≡ self.old) }
    {
        let small_key = narrow(key)?;
        let small_node = narrow(node.index())?;
        let end = narrow(self.entries.len() + 1)?;
        widen(
            self.alloc,
            self.entries.as_slice(),
            &mut self.heads,
            &mut self.next,
        )?;
        self.entries.reserve(1)?;
        self.next.reserve(1)?;
        let bucket = key % self.heads.len();
        self.next.push(self.heads[bucket]).unwrap();
        self.entries.push((small_key, small_node)).unwrap();
        self.heads[bucket] = end;
        Ok(())
    }

    /// Takes the last key away.
    pub fn pop(&mut self)
        requires { 0 < length self.old }
        ensures { self.new ≡ take (length self.old - 1) self.old }
    {
        let Some(last) = self.entries.pop() else {
            unreachable!()
        };
        let Some(head) = self.next.pop() else {
            unreachable!()
        };
        let bucket = last.0 as usize % self.heads.len();
        self.heads[bucket] = head;
    }

    /// Takes the last keys away, so that this many are left.
    pub fn truncate(&mut self, count: usize)
        requires { count ≤ length self.old }
        ensures { self.new ≡ take count self.old }
    {
        'last: while self.len() > count {
            self.pop();
        }
    }
}
