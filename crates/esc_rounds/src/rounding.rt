//! A round.

ghost use Rattle.std.specs.Prelude.{◌≡◌, ◌<◌, [], ◌∷◌, length, IfOk, OnOk};
ghost use Rattle.std.specs.List.{All};
ghost use Rattle.esc_egraph.specs.Graph.{IsGraph};
ghost use Rattle.esc_maps.specs.Chosen.{StandFor};
ghost use Rattle.esc_rounds.specs.Due.{IsRound};
ghost use Rattle.esc_rounds.specs.ListingInside.{IsListedTo, listed_in};
ghost use Rattle.esc_rounds.specs.Standing.{IsDrawable, IsReady, standing_of};

use crate::branch::Branch;
use crate::draw::{Draw, Draws};
use crate::instances::add_instances;
use crate::listing::Listing;
use crate::witnesses::add_witnesses;
use esc_egraph::Node;
use esc_maps::{map_facts, standing_nodes};
use std::alloc::{AllocError, Global};

/// Lists the facts about maps that are due.
fn add_maps(
    alloc: Global,
    branch: &Branch,
    limit: u64,
    standing: &[Node],
    listing: &mut Listing,
) -> Result<(), AllocError>
    requires graph { IsGraph branch.now.graph.now }
    requires ready { IsReady (standing_of branch.now) [] }
    requires standing { StandFor branch.now.graph.now branch.now.depths.now standing.now }
    requires listed { IsListedTo (standing_of branch.now) listing.old.live.keys limit (1 ∷ [])
        (listed_in listing.old) }
    ensures live { listing.new.live ≡ listing.old.live }
    ensures listed { OnOk result (IsListedTo (standing_of branch.now) listing.old.live.keys limit
        (2 ∷ []) (listed_in listing.new)) }
{
    let found = map_facts(alloc, branch.graph, branch.depths, standing)?;
    'found: for map_match in found.as_slice() {
        listing.consider(alloc, branch, limit, Draw::Map(*map_match))?;
    }
    Ok(())
}

/// The facts that are due within the limit of depth, in their order: none where the branch is
/// saturated. It fails only where memory is wanting.
pub fn round(alloc: Global, branch: &Branch, live: &[Draw], limit: u64) -> Result<Draws, AllocError>
    requires { IsReady (standing_of branch.now) live.now }
    ensures round { IfOk result (λ list. IsRound (standing_of branch.now) live.now limit list) }
    ensures drawable { IfOk result
        (λ list. All (IsDrawable branch.now.graph.now branch.now.formulas.now) list) }
{
    let standing = standing_nodes(alloc, branch.graph, branch.depths)?;
    let mut listing = Listing::new(alloc, branch.graph, live)?;
    add_witnesses(alloc, branch, limit, &mut listing)?;
    add_maps(alloc, branch, limit, standing.as_slice(), &mut listing)?;
    add_instances(alloc, branch, limit, standing.as_slice(), &mut listing)?;
    Ok(listing.list)
}
