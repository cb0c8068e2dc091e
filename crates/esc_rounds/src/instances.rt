//! The instances that universal literals call for, by the matches of their triggers.

ghost use Rattle.std.specs.Prelude.{◌≡◌, ◌+◌, ◌<◌, [], ◌∷◌, length, map, slice_get, IfOk, IsTrue};
ghost use Rattle.std.specs.Prelude.{OnOk, Some, slice_index};
ghost use Rattle.std.specs.List.{All};
ghost use Rattle.esc_egraph.specs.Graph.{IsGraph};
ghost use Rattle.esc_trigger.specs.Laws.{is_trigger};
ghost use Rattle.esc_maps.specs.Chosen.{StandFor};
ghost use Rattle.esc_rounds.specs.ListingInside.{IsListedTo, IsTriggerDone, count_at, instance_at};
ghost use Rattle.esc_rounds.specs.ListingInside.{listed_in, with_all_due};
ghost use Rattle.esc_rounds.specs.Standing.{IsReady, standing_of};

use crate::branch::Branch;
use crate::draw::Draw;
use crate::listing::Listing;
use esc_egraph::Node;
use esc_match::{NodeList, Substitution, matches};
use esc_trigger::Trigger;
use sqlite_items::Items;
use std::alloc::{AllocError, Global};

/// The nodes that stand for the classes of these.
fn standing_for(alloc: Global, standing: &[Node], nodes: &[Node]) -> Result<NodeList, AllocError>
    requires { All (λ n. n < length standing.now) nodes.now }
    ensures { IfOk result (λ list. list ≡ map (slice_index standing.now) nodes.now) }
{
    let mut list = Items::new(alloc);
    'nodes: for node in nodes {
        list.push(standing[node.index()])?;
    }
    Ok(list)
}

/// Considers the instances of the formula at these matches.
fn add_matches(
    alloc: Global,
    branch: &Branch,
    limit: u64,
    standing: &[Node],
    formula: u64,
    found: &[Substitution],
    listing: &mut Listing,
) -> Result<(), AllocError>
    requires graph { IsGraph branch.now.graph.now }
    requires depths { length branch.now.depths.now ≡ length branch.now.graph.now.nodes }
    requires formula { formula < length branch.now.formulas.now }
    requires standing { StandFor branch.now.graph.now branch.now.depths.now standing.now }
    requires found { All (λ m. All (λ n. n < length branch.now.graph.now.nodes) m.nodes) found.now }
    ensures live { listing.new.live ≡ listing.old.live }
    ensures listed { OnOk result (listed_in listing.new
        ≡ with_all_due (standing_of branch.now) listing.old.live.keys limit (listed_in listing.old)
        (map (instance_at formula standing.now) found.now)) }
{
    'found: for substitution in found {
        let nodes = standing_for(alloc, standing, substitution.nodes.as_slice())?;
        listing.consider(alloc, branch, limit, Draw::Instance(formula, nodes))?;
    }
    Ok(())
}

/// Considers the instances of the formula at the matches of one of its triggers.
fn add_trigger(
    alloc: Global,
    branch: &Branch,
    limit: u64,
    standing: &[Node],
    formula: u64,
    trigger: &Trigger,
    listing: &mut Listing,
) -> Result<(), AllocError>
    requires graph { IsGraph branch.now.graph.now }
    requires depths { length branch.now.depths.now ≡ length branch.now.graph.now.nodes }
    requires formula { formula < length branch.now.formulas.now }
    requires standing { StandFor branch.now.graph.now branch.now.depths.now standing.now }
    requires trigger { IsTrue (is_trigger (count_at (standing_of branch.now) formula)
        trigger.now) }
    ensures live { listing.new.live ≡ listing.old.live }
    ensures listed { OnOk result (IsTriggerDone (standing_of branch.now) listing.old.live.keys limit
        standing.now formula (count_at (standing_of branch.now) formula) trigger.now
        (listed_in listing.old) (listed_in listing.new)) }
{
    let count = branch.formulas[formula as usize].count;
    let found = matches(alloc, branch.graph, count, trigger, &esc_match::All)?;
    add_matches(
        alloc,
        branch,
        limit,
        standing,
        formula,
        found.as_slice(),
        listing,
    )
}

/// Lists the instances that the literal of this number calls for, if it is universal, and that are
/// due.
fn add_literal(
    alloc: Global,
    branch: &Branch,
    limit: u64,
    standing: &[Node],
    number: usize,
    listing: &mut Listing,
) -> Result<(), AllocError>
    requires graph { IsGraph branch.now.graph.now }
    requires ready { IsReady (standing_of branch.now) [] }
    requires standing { StandFor branch.now.graph.now branch.now.depths.now standing.now }
    requires number { number < length branch.now.literals.now }
    requires listed { IsListedTo (standing_of branch.now) listing.old.live.keys limit
        (2 ∷ number ∷ []) (listed_in listing.old) }
    ensures live { listing.new.live ≡ listing.old.live }
    ensures listed { OnOk result (IsListedTo (standing_of branch.now) listing.old.live.keys limit
        (2 ∷ (number + 1) ∷ []) (listed_in listing.new)) }
{
    let literal = branch.literals[number];
    let kept = &branch.formulas[literal.formula as usize];
    if literal.holds != kept.universal {
        return Ok(());
    }
    'triggers: for trigger in kept.triggers.as_slice() {
        add_trigger(
            alloc,
            branch,
            limit,
            standing,
            literal.formula,
            trigger,
            listing,
        )?;
    }
    Ok(())
}

/// Lists the instances that are due.
pub(crate) fn add_instances(
    alloc: Global,
    branch: &Branch,
    limit: u64,
    standing: &[Node],
    listing: &mut Listing,
) -> Result<(), AllocError>
    requires graph { IsGraph branch.now.graph.now }
    requires ready { IsReady (standing_of branch.now) [] }
    requires standing { StandFor branch.now.graph.now branch.now.depths.now standing.now }
    requires listed { IsListedTo (standing_of branch.now) listing.old.live.keys limit (2 ∷ [])
        (listed_in listing.old) }
    ensures live { listing.new.live ≡ listing.old.live }
    ensures listed { OnOk result (IsListedTo (standing_of branch.now) listing.old.live.keys limit
        (3 ∷ []) (listed_in listing.new)) }
{
    'literals: for number in 0..branch.literals.len() {
        add_literal(alloc, branch, limit, standing, number, listing)?;
    }
    Ok(())
}
