//! The list of a round, as it grows.

ghost use Rattle.std.specs.Prelude.{◌≡◌, ◌↔◌, [], length, IfOk, OnOk};
ghost use Rattle.std.specs.List.{All, Any, Contains};
ghost use Rattle.esc_egraph.specs.Graph.{IsGraph};
ghost use Rattle.esc_rounds.specs.KeyInside.{key_of};
ghost use Rattle.esc_rounds.specs.ListingInside.{AreKeysOf, listed_in, with_due};
ghost use Rattle.esc_rounds.specs.Standing.{AreThere, IsDrawable, standing_of};

use crate::branch::Branch;
use crate::depth::is_within;
use crate::draw::{Draw, Draws};
use crate::key::{Key, key_of};
use esc_egraph::EGraph;
use indexmap::IndexSet;
use sqlite_items::Items;
use std::alloc::{AllocError, Global};

/// The keys of what is live, and what is listed with its keys.
#[derive(Drop)]
pub(crate) struct Listing {
    pub(crate) live: IndexSet<Key>,
    pub(crate) keys: IndexSet<Key>,
    pub(crate) list: Draws,
}

/// The keys of what is live.
fn live_keys(alloc: Global, graph: &EGraph, live: &[Draw]) -> Result<IndexSet<Key>, AllocError>
    requires graph { IsGraph graph.now }
    requires there { All (AreThere graph.now) live.now }
    ensures { IfOk result (λ set. AreKeysOf graph.now live.now set.keys) }
{
    let mut keys = IndexSet::new(alloc);
    'live: for draw in live {
        keys.insert(key_of(alloc, graph, draw)?)?;
    }
    Ok(keys)
}

impl Listing {
    /// An empty list, where these facts are live.
    pub(crate) fn new(alloc: Global, graph: &EGraph, live: &[Draw]) -> Result<Listing, AllocError>
        requires graph { IsGraph graph.now }
        requires there { All (AreThere graph.now) live.now }
        ensures live { IfOk result (λ listing. AreKeysOf graph.now live.now listing.live.keys) }
        ensures empty { IfOk result
            (λ listing. listed_in listing ≡ record { keys = []; list = [] }) }
    {
        Ok(Listing {
            live: live_keys(alloc, graph, live)?,
            keys: IndexSet::new(alloc),
            list: Items::new(alloc),
        })
    }

    /// Lists the fact if it lies within the limit, and none that is alike is live or listed.
    pub(crate) fn consider(
        &mut self,
        alloc: Global,
        branch: &Branch,
        limit: u64,
        draw: Draw,
    ) -> Result<(), AllocError>
        requires graph { IsGraph branch.now.graph.now }
        requires depths { length branch.now.depths.now ≡ length branch.now.graph.now.nodes }
        requires drawable { IsDrawable branch.now.graph.now branch.now.formulas.now draw }
        ensures live { self.new.live ≡ self.old.live }
        ensures listed { OnOk result (listed_in self.new
            ≡ with_due (standing_of branch.now) self.old.live.keys limit (listed_in self.old)
            draw) }
    {
        if !is_within(branch, limit, &draw) {
            return Ok(());
        }
        let key = key_of(alloc, branch.graph, &draw)?;
        if self.live.contains(&key) {
            return Ok(());
        }
        if self.keys.insert(key)? {
            self.list.push(draw)?;
        }
        Ok(())
    }
}
