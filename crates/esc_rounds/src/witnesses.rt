//! The witnesses that existential literals call for.

ghost use Rattle.std.specs.Prelude.{◌≡◌, ◌<◌, [], ◌∷◌, length, OnOk};
ghost use Rattle.std.specs.List.{All, fold, flat_map};
ghost use Rattle.esc_egraph.specs.Graph.{IsGraph};
ghost use Rattle.esc_rounds.specs.ListingInside.{IsListedTo, listed_in, with_all_due, witnesses_of};
ghost use Rattle.esc_rounds.specs.Standing.{IsReady, standing_of};

use crate::branch::Branch;
use crate::draw::Draw;
use crate::kept::Literal;
use crate::listing::Listing;
use std::alloc::{AllocError, Global};

/// Considers the witness of the literal, if it is existential.
fn add_witness(
    alloc: Global,
    branch: &Branch,
    limit: u64,
    literal: Literal,
    listing: &mut Listing,
) -> Result<(), AllocError>
    requires graph { IsGraph branch.now.graph.now }
    requires depths { length branch.now.depths.now ≡ length branch.now.graph.now.nodes }
    requires there { literal.formula < length branch.now.formulas.now }
    ensures live { listing.new.live ≡ listing.old.live }
    ensures listed { OnOk result (listed_in listing.new
        ≡ with_all_due (standing_of branch.now) listing.old.live.keys limit (listed_in listing.old)
        (witnesses_of (standing_of branch.now) literal)) }
{
    if literal.holds == branch.formulas[literal.formula as usize].universal {
        return Ok(());
    }
    listing.consider(alloc, branch, limit, Draw::Witness(literal.formula))
}

/// Lists the witnesses that are due.
pub(crate) fn add_witnesses(
    alloc: Global,
    branch: &Branch,
    limit: u64,
    listing: &mut Listing,
) -> Result<(), AllocError>
    requires graph { IsGraph branch.now.graph.now }
    requires ready { IsReady (standing_of branch.now) [] }
    requires listed { IsListedTo (standing_of branch.now) listing.old.live.keys limit (0 ∷ 0 ∷ [])
        (listed_in listing.old) }
    ensures live { listing.new.live ≡ listing.old.live }
    ensures listed { OnOk result (IsListedTo (standing_of branch.now) listing.old.live.keys limit
        (1 ∷ []) (listed_in listing.new)) }
{
    'literals: for (number, literal) in branch.literals.iter().enumerate() {
        add_witness(alloc, branch, limit, *literal, listing)?;
    }
    Ok(())
}
