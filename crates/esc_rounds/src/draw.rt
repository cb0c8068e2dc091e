//! What facts are drawn from.

use esc_maps::MapMatch;
use esc_match::NodeList;
use sqlite_items::Items;

/// What a fact is drawn from: a quantified formula, by its place among those that are kept, and
/// nodes.
#[derive(Drop)]
pub enum Draw {
    /// What the formula brings at terms of its own.
    Witness(u64),
    /// A fact about maps.
    Map(MapMatch),
    /// What the formula brings at the terms of these nodes.
    Instance(u64, NodeList),
}

pub type Draws = Items<Draw>;
