//! Changes of the lists by which classes are held.

ghost use Rattle.std.specs.Prelude.{◌≡◌, ◌≢◌, ℕ, ◌<◌, [], ◌++◌, length, map, take, OnOk, OnErr, All, slice_index, slice_index_or, slice_set};
ghost use Rattle.std.specs.List.{Contains};

use crate::node::Node;
use smallvec::SmallVec;
use std::alloc::{AllocError, Global};
use std::mem;

/// Most classes have no more members than these, and need no memory of their own. With two a list
/// takes no more room than an empty one.
const INLINE_MEMBERS: usize = 2;

/// The members of a class.
pub(crate) type Members = SmallVec<Node, INLINE_MEMBERS>;

/// Gives each of some nodes this root.
pub(crate) fn set_roots(roots: &mut Vec<u32>, nodes: &[Node], root: u32)
    requires { All (λ n. n < length roots.old.items) nodes.now }
    ensures count { length roots.new.items ≡ length roots.old.items }
    ensures these { (k : ℕ) → Contains nodes.now k → slice_index roots.new.items k ≡ root }
    ensures others { (k : ℕ) → (Contains nodes.now k → ⊥) → slice_index roots.new.items k
        ≡ slice_index roots.old.items k }
{
    'nodes: for node in nodes {
        roots[node.index()] = root;
    }
}

/// Adds the members at one place to those at another. The former stay, without spare room.
pub(crate) fn add_members(
    members: &mut Vec<Members>,
    from: u32,
    into: u32,
    alloc: Global,
) -> Result<(), AllocError>
    requires from_is_there { from < length members.old.items }
    requires into_is_there { into < length members.old.items }
    requires apart { from ≢ into }
    ensures ok { OnOk result (map (λ v. v.items) members.new.items
        ≡ slice_set (map (λ v. v.items) members.old.items) into
        (slice_index_or (map (λ v. v.items) members.old.items) into []
        ++ slice_index_or (map (λ v. v.items) members.old.items) from [])) }
    ensures err { OnErr result (map (λ v. v.items) members.new.items
        ≡ map (λ v. v.items) members.old.items) }
{
    let mut moving = mem::replace(&mut members[from as usize], Members::new(alloc));
    moving.shrink_to_fit();
    let added = members[into as usize].extend_from_slice(moving.as_slice());
    members[from as usize] = moving;
    added?;
    Ok(())
}
