//! Forbidden pairs by the classes of their sides.

ghost use Rattle.std.specs.Prelude.{◌≡◌, ℕ, ◌<◌, ◌≤◌, [], ◌∷◌, ◌++◌, length, take, OnOk, OnErr, IfOk, All, List};
ghost use Rattle.esc_union.specs.Merges.{AreMerges, SameClass, class_number};
ghost use Rattle.esc_egraph.specs.SidesInside.{AreByClass, IsCopied, IsSided, sides_of};

use esc_index::Index;
use esc_union::{Node, Partition, narrow};
use std::alloc::{AllocError, Global};

/// What there was before a pair was forbidden, or before classes were merged, in 32 bits.
#[derive(Clone, Copy)]
pub(crate) struct PairStep {
    pub(crate) merges: u32,
    pub(crate) pairs: u32,
    pub(crate) entries: u32,
}

/// For each root the sides of forbidden pairs in its class.
#[derive(Drop)]
pub(crate) struct Sides {
    /// The root of each side, with the other side. Where a class becomes a part of another, its
    /// entries are added under the other's root, and its own stay: to take the merge back it is
    /// enough to take the last entries away. So a merge costs no more than to find out, before
    /// it, whether its nodes are forced apart.
    pub(crate) entries: Index,
    /// One for each pair and each merge, as long as they are taken back in the order of making.
    pub(crate) steps: Vec<PairStep>,
    /// Whether each side has its entry, which is not so after changes were taken back in another
    /// order.
    pub(crate) whole: bool,
}

impl Sides {
    pub(crate) fn new(alloc: Global) -> Sides
        ensures { IsSided [] [] result }
    {
        Sides {
            entries: Index::new(alloc),
            steps: Vec::new(alloc),
            whole: true,
        }
    }

    /// Adds both sides of a pair.
    pub(crate) fn push(
        &mut self,
        classes: &Partition,
        pairs: &[(Node, Node)],
        a: Node,
        b: Node,
    ) -> Result<(), AllocError>
        requires merged { AreMerges classes.now.count classes.now.merges }
        requires sided { IsSided classes.now.merges pairs.now self.old }
        requires a_is_there { a < classes.now.count }
        requires b_is_there { b < classes.now.count }
        ensures ok { OnOk result (IsSided classes.now.merges (pairs.now ++ (a, b) ∷ []) self.new) }
        ensures err { OnErr result (IsSided classes.now.merges pairs.now self.new) }
    {
        if !self.whole {
            return Ok(());
        }
        self.steps.reserve(1)?;
        let step = pair_step(classes, pairs, &self.entries)?;
        push_sides(&mut self.entries, classes, a, b)?;
        self.steps.push(step).unwrap();
        Ok(())
    }

    /// Adds the sides in the class of one node to those in that of another.
    pub(crate) fn merge(
        &mut self,
        classes: &Partition,
        pairs: &[(Node, Node)],
        from: Node,
        into: Node,
    ) -> Result<(), AllocError>
        requires merged { AreMerges classes.now.count classes.now.merges }
        requires sided { IsSided classes.now.merges pairs.now self.old }
        requires from_is_there { from < classes.now.count }
        requires into_is_there { into < classes.now.count }
        requires apart { SameClass (class_number classes.now.merges) from into → ⊥ }
        ensures ok { OnOk result (IsSided (classes.now.merges ++ (from, into) ∷ []) pairs.now
            self.new) }
        ensures err { OnErr result (IsSided classes.now.merges pairs.now self.new) }
    {
        if !self.whole {
            return Ok(());
        }
        self.steps.reserve(1)?;
        let step = pair_step(classes, pairs, &self.entries)?;
        let small = classes.root(from);
        let large = classes.root(into);
        copy_under(&mut self.entries, small, large)?;
        self.steps.push(step).unwrap();
        Ok(())
    }

    /// Enters the sides anew where they are not whole.
    pub(crate) fn index(
        &mut self,
        classes: &Partition,
        pairs: &[(Node, Node)],
    ) -> Result<(), AllocError>
        requires merged { AreMerges classes.now.count classes.now.merges }
        requires sided { IsSided classes.now.merges pairs.now self.old }
        requires low { All (λ p. (p.0 < classes.now.count) × (p.1 < classes.now.count)) pairs.now }
        ensures { IsSided classes.now.merges pairs.now self.new }
    {
        if self.whole {
            return Ok(());
        }
        self.steps.clear();
        enter_sides(&mut self.entries, classes, pairs)?;
        self.whole = true;
        Ok(())
    }

    /// Goes back to so many merges and pairs. Where the last step was not made from so many,
    /// nothing is known any more.
    pub(crate) fn back_to(&mut self, merges: usize, pairs: usize)
        requires { All (λ s. s.entries ≤ length self.old.entries) self.old.steps.items }
        ensures { (ms ps : List (ℕ × ℕ)) → IsSided ms ps self.old
            → IsSided (take merges ms) (take pairs ps) self.new }
    {
        if let Some(step) = self.steps.pop() {
            if step.merges as usize == merges && step.pairs as usize == pairs {
                self.entries.truncate(step.entries as usize);
                return;
            }
        }
        self.steps.clear();
        self.entries.truncate(0);
        self.whole = false;
    }
}

/// What there is now.
fn pair_step(
    classes: &Partition,
    pairs: &[(Node, Node)],
    entries: &Index,
) -> Result<PairStep, AllocError>
    ensures { IfOk result (λ s. s ≡ record {
      merges = length classes.now.merges;
      pairs = length pairs.now;
      entries = length entries.now;
    }) }
{
    Ok(PairStep {
        merges: narrow(classes.merges().len())?,
        pairs: narrow(pairs.len())?,
        entries: narrow(entries.len())?,
    })
}

/// Has entries for both sides of each pair.
fn enter_sides(
    entries: &mut Index,
    classes: &Partition,
    pairs: &[(Node, Node)],
) -> Result<(), AllocError>
    requires merged { AreMerges classes.now.count classes.now.merges }
    requires low { All (λ p. (p.0 < classes.now.count) × (p.1 < classes.now.count)) pairs.now }
    ensures { OnOk result (AreByClass classes.now.merges (sides_of pairs.now) entries.new) }
{
    entries.truncate(0);
    'pairs: for pair in pairs {
        push_sides(entries, classes, pair.0, pair.1)?;
    }
    Ok(())
}

/// Adds both sides of a pair under the roots of their classes.
fn push_sides(entries: &mut Index, classes: &Partition, a: Node, b: Node) -> Result<(), AllocError>
    requires a_is_there { a < classes.now.count }
    requires b_is_there { b < classes.now.count }
    ensures ok { OnOk result (entries.new ≡ entries.old ++ (class_number classes.now.merges a, b)
        ∷ ((class_number classes.now.merges b, a) ∷ [])) }
    ensures err { OnErr result (entries.new ≡ entries.old) }
{
    entries.push(classes.root(a).index(), b)?;
    if let Err(error) = entries.push(classes.root(b).index(), a) {
        entries.pop();
        return Err(error);
    }
    Ok(())
}

/// Adds what stands under one root under another.
fn copy_under(entries: &mut Index, from: Node, into: Node) -> Result<(), AllocError>
    ensures ok { OnOk result (IsCopied entries.old from into entries.new) }
    ensures err { OnErr result (entries.new ≡ entries.old) }
{
    let count = entries.len();
    let mut end = count;
    'places: while let Some(place) = entries.last_before(from.index(), end) {
        let node = entries.node(place);
        if let Err(error) = entries.push(into.index(), node) {
            entries.truncate(count);
            return Err(error);
        }
        end = place;
    }
    Ok(())
}
