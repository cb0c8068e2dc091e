//! Nodes become arithmetic.

ghost use Rattle.std.specs.Prelude.{◌<◌, [], ◌++◌, IfErr, OnOk};
ghost use Rattle.std.specs.List.{All};
ghost use Rattle.esc_trail.specs.Undo.{Notes};
ghost use Rattle.esc_sharing.specs.Calls.{terms_at};
ghost use Rattle.esc_sharing.specs.Admitted.{AdmitsWith};
ghost use Rattle.esc_sharing.specs.Calls.{AddsNumbers};
ghost use Rattle.esc_sharing.specs.Nodes.{node_count};
ghost use Rattle.esc_sharing.specs.Numbers.{AddsMade, AreNumbersOf, IsNumber, number_terms};
ghost use Rattle.esc_sharing.specs.Stops.{UnlessMemory};

use crate::theory::Theory;
use esc_egraph::{EGraph, Node};
use esc_simplex::Stop;
use esc_trail::{Carries, Trail};

/// Makes nodes arithmetic, in their order, as far as they are not.
pub(crate) fn add_numbers<T: Theory, R: Carries<T::Rec>>(
    theory: &mut T,
    graph: &EGraph,
    nodes: &[Node],
    trail: &mut Trail<R>,
) -> Result<(), Stop>
    requires sound { T.sound theory.old }
    requires nodes { All (λ a. a < node_count graph.now) nodes.now }
    requires numbers { AreNumbersOf graph.now (T.numbers theory.old) }
    ensures all { OnOk result (All (IsNumber (T.numbers theory.new)) nodes.now) }
    ensures of { AreNumbersOf graph.now (T.numbers theory.new) }
    ensures numbers { AddsNumbers (T.numbers theory.old) (T.numbers theory.new)
        (terms_at graph.now nodes.now) }
    ensures admits { AdmitsWith (T.admits theory.old) (T.admits theory.new) [] }
    ensures sound { T.sound theory.new }
    ensures made { AddsMade (T.made theory.old) (T.made theory.new)
        (number_terms (T.numbers theory.old) ++ terms_at graph.now nodes.now) }
    ensures stop { IfErr result (UnlessMemory (T.barred theory.new
        (terms_at graph.now nodes.now)
        (number_terms (T.numbers theory.old) ++ terms_at graph.now nodes.now))) }
    ensures undo { Notes T.undo R.carried trail.old.records trail.new.records theory.old
        theory.new }
{
    'nodes: for place in 0..nodes.len() {
        let node = nodes[place];
        theory.add_node(graph, node, trail)?;
    }
    Ok(())
}
