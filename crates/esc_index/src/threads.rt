//! Threads through the places of one bucket.

ghost use Rattle.std.specs.Prelude.{◌≡◌, ℕ, ◌<◌, ◌≤◌, ◌^◌, length, slice_index, All, OnOk, IfSome, IfNone};
ghost use Rattle.esc_index.specs.IndexInside.{IsHeld};
ghost use Rattle.esc_index.specs.Places.{entry_at, HasNone, IsLastBefore};
ghost use Rattle.esc_index.specs.ThreadsInside.{IsThreaded};

use std::alloc::{AllocError, Global};

/// Threads all places, where no bucket has any.
pub(crate) fn thread(entries: &[(u32, u32)], heads: &mut [u32], next: &mut [u32])
    requires small { length entries.now < 2 ^ 32 }
    requires some { 0 < length heads.old }
    requires empty { All (λ h. h ≡ 0) heads.old }
    requires as_many { length next.old ≡ length entries.now }
    ensures heads { length heads.new ≡ length heads.old }
    ensures next { length next.new ≡ length next.old }
    ensures threaded { IsThreaded entries.now (length entries.now) heads.new next.new }
{
    'places: for (place, entry) in entries.iter().enumerate() {
        let bucket = entry.0 as usize % heads.len();
        next[place] = heads[bucket];
        heads[bucket] = (place + 1) as u32;
    }
}

/// Has more buckets than there are places.
pub(crate) fn widen(
    alloc: Global,
    entries: &[(u32, u32)],
    heads: &mut Vec<u32>,
    next: &mut Vec<u32>,
) -> Result<(), AllocError>
    requires small { length entries.now < 2 ^ 32 }
    requires as_many { length next.old.items ≡ length entries.now }
    requires threaded { IsThreaded entries.now (length entries.now) heads.old.items next.old.items }
    ensures some { OnOk result (0 < length heads.new.items) }
    ensures next { length next.new.items ≡ length next.old.items }
    ensures threaded { IsThreaded entries.now (length entries.now) heads.new.items next.new.items }
    ensures kept { length heads.old.items ≤ length heads.new.items }
{
    if heads.len() > entries.len() {
        return Ok(());
    }
    let mut wider = Vec::from_elem(alloc, 0, entries.len().saturating_mul(2).saturating_add(1))?;
    thread(entries, wider.as_mut_slice(), next.as_mut_slice());
    *heads = wider;
    Ok(())
}

/// The last place before `end` that has the key, where `end` is the end or has the key.
pub(crate) fn last_place(
    entries: &[(u32, u32)],
    heads: &[u32],
    next: &[u32],
    key: usize,
    end: usize,
) -> Option<usize>
    requires held { IsHeld entries.now heads.now next.now }
    requires bound { end ≤ length entries.now }
    requires has { end < length entries.now → (entry_at entries.now end).0 ≡ key }
    ensures some { IfSome result (λ p. IsLastBefore entries.now key end p) }
    ensures none { IfNone result (HasNone entries.now key 0 end) }
{
    if heads.is_empty() {
        return None;
    }
    let mut head = if end < entries.len() {
        next[end]
    } else {
        heads[key % heads.len()]
    };
    'places: while head > 0 {
        let place = head as usize - 1;
        if entries[place].0 as usize == key {
            return Some(place);
        }
        head = next[place];
    }
    None
}
