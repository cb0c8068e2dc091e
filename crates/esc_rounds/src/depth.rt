//! How deep facts lie.

ghost use Rattle.std.specs.Prelude.{◌≡◌, ◌<◌, length, nat_le, slice_index};
ghost use Rattle.std.specs.List.{All, list_any};
ghost use Rattle.esc_rounds.specs.Due.{is_within};
ghost use Rattle.esc_rounds.specs.Standing.{IsDrawable, standing_of};

use crate::branch::Branch;
use crate::draw::Draw;
use esc_egraph::Node;
use esc_maps::MapMatch;

/// Whether the node lies at the limit or deeper.
fn is_deep(depths: &[u64], node: Node, limit: u64) -> bool
    requires { node < length depths.now }
    ensures { result ≡ nat_le limit (slice_index depths.now node) }
{
    limit <= depths[node.index()]
}

/// Whether some node lies at the limit or deeper.
fn is_any_deep(depths: &[u64], nodes: &[Node], limit: u64) -> bool
    requires { All (λ n. n < length depths.now) nodes.now }
    ensures { result ≡ list_any (λ n. nat_le limit (slice_index depths.now n)) nodes.now }
{
    'nodes: for node in nodes {
        if is_deep(depths, *node, limit) {
            return true;
        }
    }
    false
}

/// Whether the fact lies within the limit, where it is not a witness that is one deeper than what
/// it is drawn from.
pub(crate) fn is_within(branch: &Branch, limit: u64, draw: &Draw) -> bool
    requires depths { length branch.now.depths.now ≡ length branch.now.graph.now.nodes }
    requires drawable { IsDrawable branch.now.graph.now branch.now.formulas.now draw.now }
    ensures { result ≡ is_within (standing_of branch.now) limit draw.now }
{
    match draw {
        Draw::Witness(_) => true,
        Draw::Map(MapMatch::Write(write)) => branch.depths[write.index()] < limit,
        Draw::Map(MapMatch::Read(write, place)) => {
            let depth = branch.depths[write.index()];
            depth < limit && branch.depths[place.index()] < limit
        }
        Draw::Instance(formula, nodes) => {
            let depth = branch.formulas[*formula as usize].depth;
            depth < limit && !is_any_deep(branch.depths, nodes.as_slice(), limit)
        }
    }
}
