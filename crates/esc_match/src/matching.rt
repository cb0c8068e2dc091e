//! The matches of a trigger.

ghost use Rattle.std.specs.Prelude.{◌≡◌, IfOk, IsTrue, OnOk, map};
ghost use Rattle.esc_trigger.specs.Laws.{is_trigger};
ghost use Rattle.esc_match.specs.Matches.{AreMatches};
ghost use Rattle.esc_match.specs.SubstitutionsInside.{first_substitutions, with_way};

use crate::candidates::all_nodes;
use crate::growing::ways_of;
use crate::substitution::{Substitution, nodes_for};
use crate::wanted::{Wanted, is_any_wanted};
use crate::way::Way;
use esc_egraph::EGraph;
use esc_trigger::Trigger;
use indexmap::IndexSet;
use sqlite_items::Items;
use std::alloc::{AllocError, Global};

pub type MatchList = Items<Substitution>;

/// Adds the substitution of a way, if the way has a wanted node and its substitution is new.
#[tactic(auto, unfolding(crate::specs::SubstitutionsInside::with_way))]
fn add_way<W: Wanted>(
    alloc: Global,
    count: u64,
    way: &Way,
    wanted: &W,
    found: &mut IndexSet<Substitution>,
) -> Result<(), AllocError>
    ensures { OnOk result (found.new.keys
        ≡ with_way count (W.wanted wanted.now) found.old.keys way.now) }
{
    if !is_any_wanted(way.matched.as_slice(), wanted) {
        return Ok(());
    }
    let nodes = nodes_for(alloc, count, way.bound.as_slice())?;
    found.insert(Substitution { nodes })?;
    Ok(())
}

/// The substitutions of those ways that have a wanted node, each at its first place.
fn first_of<W: Wanted>(
    alloc: Global,
    count: u64,
    ways: &[Way],
    wanted: &W,
) -> Result<IndexSet<Substitution>, AllocError>
    ensures { IfOk result (λ found. found.keys
        ≡ first_substitutions count (W.wanted wanted.now) ways.now) }
{
    let mut found = IndexSet::new(alloc);
    'ways: for way in ways {
        add_way(alloc, count, way, wanted, &mut found)?;
    }
    Ok(found)
}

fn listed(alloc: Global, found: IndexSet<Substitution>) -> Result<MatchList, AllocError>
    ensures { IfOk result (λ list. list ≡ found.keys) }
{
    let mut list = Items::new(alloc);
    'found: for substitution in found {
        list.push(substitution)?;
    }
    Ok(list)
}

/// The matches of a trigger with so many variables that use a wanted node, each once up to
/// congruence, in the order of their first places.
pub fn matches<W: Wanted>(
    alloc: Global,
    graph: &EGraph,
    count: u64,
    trigger: &Trigger,
    wanted: &W,
) -> Result<MatchList, AllocError>
    requires { IsTrue (is_trigger count trigger.now) }
    ensures { IfOk result (λ found. AreMatches graph.now count trigger.now (W.wanted wanted.now)
        (map (λ m. m.nodes) found)) }
{
    let nodes = all_nodes(alloc, graph)?;
    let ways = ways_of(alloc, graph, nodes.as_slice(), trigger.as_slice())?;
    let found = first_of(alloc, count, ways.as_slice(), wanted)?;
    let list = listed(alloc, found)?;
    Ok(list)
}
