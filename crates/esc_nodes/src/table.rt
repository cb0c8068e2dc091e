//! Nodes by the digests of their terms.

ghost use Rattle.std.specs.Prelude.{◌≡◌, ℕ, ◌+◌, ◌-◌, ◌<◌, ◌≤◌, ◌%◌, ◌^◌, [], ◌∷◌, ◌++◌};
ghost use Rattle.std.specs.Prelude.{length, take, OnOk, OnErr, IfSome, IfNone, slice_index};
ghost use Rattle.esc_nodes.specs.TableInside.{IsEnd, AreLinked, bucket_at};

use esc_union::narrow;
use std::alloc::{AllocError, Global};
use std::marker::Model;

/// A table has at least so many buckets, once it holds a node.
const LEAST_BUCKETS: usize = 16;

/// The digest of each node. The remainder of a digest by the number of buckets is its bucket. An
/// end is one past the last node of a bucket, and 0 where there is none: there is the end of each
/// bucket, and for each node the end of its bucket before that node was made, in 32 bits.
#[derive(Drop)]
pub(crate) struct Table {
    alloc: Global,
    digests: Vec<u64>,
    ends: Vec<u32>,
    ends_before: Vec<u32>,
}

impl Model for Table {
    ghost use Rattle.esc_nodes.specs.TableInside.{Filed};

    ghost Value = { Filed };

    ghost use Rattle.esc_nodes.specs.TableHeldInside.{filed, IsHeld};

    ghost view = { filed };

    ghost invariant = { IsHeld };
}

impl Table {
    pub(crate) fn new(alloc: Global) -> Table
        ensures { result.digests ≡ [] }
    {
        Table {
            alloc,
            digests: Vec::new(alloc),
            ends: Vec::new(alloc),
            ends_before: Vec::new(alloc),
        }
    }

    /// The digest of a node, if there is one of this number.
    pub(crate) fn digest(&self, index: usize) -> Option<u64>
        ensures some { IfSome result
            (λ d. (index < length self.now.digests) × (d ≡ slice_index self.now.digests index)) }
        ensures none { IfNone result (length self.now.digests ≤ index) }
    {
        self.digests.get(index).copied()
    }

    /// The end of the bucket of a digest.
    pub(crate) fn end(&self, digest: u64) -> usize
        ensures { IsEnd (bucket_at self.now)
            (digest % self.now.buckets) (length self.now.digests) result }
    {
        if self.ends.is_empty() {
            return 0;
        }
        self.ends[bucket(digest, self.ends.len())] as usize
    }

    /// The end of the bucket of a node's digest before the node was made.
    pub(crate) fn end_before(&self, index: usize) -> usize
        requires { index < length self.now.digests }
        ensures { IsEnd (bucket_at self.now) (bucket_at self.now index) index result }
    {
        self.ends_before[index] as usize
    }

    /// Adds a node with this digest.
    pub(crate) fn push(&mut self, digest: u64) -> Result<(), AllocError>
        ensures ok { OnOk result (self.new.digests ≡ self.old.digests ++ digest ∷ []) }
        ensures err { OnErr result (self.new.digests ≡ self.old.digests) }
    {
        let end = narrow(self.digests.len() + 1)?;
        self.add_buckets()?;
        self.digests.reserve(1)?;
        self.ends_before.reserve(1)?;
        let bucket = bucket(digest, self.ends.len());
        self.ends_before.push(self.ends[bucket]).unwrap();
        self.digests.push(digest).unwrap();
        self.ends[bucket] = end;
        Ok(())
    }

    /// Gives the table more buckets than nodes.
    fn add_buckets(&mut self) -> Result<(), AllocError>
        requires { length self.old.digests < 2 ^ 32 }
        ensures digests { self.new.digests ≡ self.old.digests }
        ensures ok { OnOk result (0 < self.new.buckets) }
    {
        if self.digests.len() < self.ends.len() {
            return Ok(());
        }
        let before = self.ends_before.as_mut_slice();
        grow(self.alloc, self.digests.as_slice(), before, &mut self.ends)
    }

    /// Takes the last node away.
    pub(crate) fn pop(&mut self)
        requires { 0 < length self.old.digests }
        ensures { self.new.digests ≡ take (length self.old.digests - 1) self.old.digests }
    {
        let Some(digest) = self.digests.pop() else {
            unreachable!()
        };
        let Some(end) = self.ends_before.pop() else {
            unreachable!()
        };
        let bucket = bucket(digest, self.ends.len());
        self.ends[bucket] = end;
    }
}

/// The bucket of a digest.
fn bucket(digest: u64, buckets: usize) -> usize
    requires { 0 < buckets }
    ensures is { result ≡ digest % buckets }
    ensures there { result < buckets }
{
    digest as usize % buckets
}

/// Gives the nodes twice as many buckets.
fn grow(
    alloc: Global,
    digests: &[u64],
    ends_before: &mut [u32],
    ends: &mut Vec<u32>,
) -> Result<(), AllocError>
    requires small { length digests.now < 2 ^ 32 }
    requires as_long { length ends_before.old ≡ length digests.now }
    ensures some { OnOk result (0 < length ends.new.items) }
    ensures count { length ends_before.new ≡ length ends_before.old }
    ensures ok { OnOk result
        (AreLinked digests.now ends.new.items ends_before.new (length digests.now)) }
    ensures err { OnErr result
        ((ends.new.items ≡ ends.old.items) × (ends_before.new ≡ ends_before.old)) }
{
    let buckets = ends.len().saturating_mul(2).max(LEAST_BUCKETS);
    let mut wider: Vec<u32> = vec![in alloc; 0; buckets]?;
    link(digests, ends_before, wider.as_mut_slice());
    *ends = wider;
    Ok(())
}

/// Links the nodes of each bucket, from buckets that are empty.
fn link(digests: &[u64], ends_before: &mut [u32], ends: &mut [u32])
    requires small { length digests.now < 2 ^ 32 }
    requires as_long { length ends_before.old ≡ length digests.now }
    requires some { 0 < length ends.old }
    requires empty { (b : ℕ) → slice_index ends.old b ≡ 0 }
    ensures count { length ends.new ≡ length ends.old }
    ensures linked { AreLinked digests.now ends.new ends_before.new (length digests.now) }
{
    'nodes: for (index, digest) in digests.iter().enumerate() {
        let bucket = bucket(*digest, ends.len());
        ends_before[index] = ends[bucket];
        ends[bucket] = (index + 1) as u32;
    }
}
