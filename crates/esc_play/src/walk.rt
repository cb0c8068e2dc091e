//! Nodes for the terms of a formula, outside quantified ones.

ghost use Rattle.std.specs.Prelude.{[], ◌∷◌, ◌++◌, if◌then◌else◌, IsTrue, OnOk};
ghost use Rattle.std.specs.List.{flat_map, list_all};
ghost use Rattle.esc_term.specs.Formula.{is_closed, terms_of};
ghost use Rattle.esc_term.specs.Term.{is_ground, subterms};
ghost use Rattle.esc_sharing.specs.Shared.{IsShared};
ghost use Rattle.esc_sharing.specs.SharingUndo.{part_carried};
ghost use Rattle.esc_outcome.specs.JamLaws.{shared_in};
ghost use Rattle.esc_play.specs.WalkingInside.{Brings, Walks, sides_in};

use esc_distinct::CarriesGroups;
use esc_egraph::{CarriesNodes, Node};
use esc_sharing::{CarriesShare, Sharing};
use esc_simplex::{Simplex, SimplexRec};
use esc_term::{Formula, Term};
use esc_trail::{Carries, Trail};
use std::alloc::AllocError;

/// Makes the nodes of the terms in a formula. Those that are to become arithmetic come behind the
/// numbers.
#[cycle(add_formula)]
pub(crate) fn add_formula<R: CarriesNodes + CarriesGroups + CarriesShare + Carries<SimplexRec>>(
    sharing: &mut Sharing<Simplex>,
    formula: &Formula,
    numbers: &mut Vec<Node>,
    trail: &mut Trail<R>,
) -> Result<(), AllocError>
    requires shared { IsShared (shared_in sharing.old) }
    requires closed { IsTrue (is_closed formula.now) }
    ensures brings { OnOk result (Brings (shared_in sharing.old) (shared_in sharing.new)
        numbers.old.items numbers.new.items (terms_of formula.now) (sides_in formula.now)) }
    ensures walks { Walks (part_carried R.carried_node R.carried_group R.carried_share R.carried)
        trail.old.records trail.new.records sharing.old sharing.new }
{
    match formula {
        Formula::True | Formula::False | Formula::Forall(_) | Formula::Exists(_) => Ok(()),
        Formula::And(parts) | Formula::Or(parts) => {
            add_formulas(sharing, parts.as_slice(), numbers, trail)
        }
        Formula::Not(part) | Formula::LabelPos(_, part) | Formula::LabelNeg(_, part) => {
            add_formula(sharing, part.get(), numbers, trail)
        }
        Formula::Implies(left, right) | Formula::Iff(left, right) => {
            add_formula(sharing, left.get(), numbers, trail)?;
            add_formula(sharing, right.get(), numbers, trail)
        }
        Formula::Eq(left, right) => add_two(sharing, left, right, false, numbers, trail),
        Formula::Less(left, right) => add_two(sharing, left, right, true, numbers, trail),
        Formula::Distinct(terms) => add_places(sharing, terms.as_slice(), numbers, trail),
    }
}

/// Makes the nodes of the terms in formulas.
#[cycle(add_formula)]
fn add_formulas<R: CarriesNodes + CarriesGroups + CarriesShare + Carries<SimplexRec>>(
    sharing: &mut Sharing<Simplex>,
    formulas: &[Formula],
    numbers: &mut Vec<Node>,
    trail: &mut Trail<R>,
) -> Result<(), AllocError>
    requires shared { IsShared (shared_in sharing.old) }
    requires closed { IsTrue (list_all is_closed formulas.now) }
    ensures brings { OnOk result (Brings (shared_in sharing.old) (shared_in sharing.new)
        numbers.old.items numbers.new.items (flat_map terms_of formulas.now)
        (flat_map sides_in formulas.now)) }
    ensures walks { Walks (part_carried R.carried_node R.carried_group R.carried_share R.carried)
        trail.old.records trail.new.records sharing.old sharing.new }
{
    'formulas: for formula in formulas {
        add_formula(sharing, formula, numbers, trail)?;
    }
    Ok(())
}

/// Makes the nodes of two terms, which are sides of an order or of an equation.
fn add_two<R: CarriesNodes + CarriesGroups + CarriesShare + Carries<SimplexRec>>(
    sharing: &mut Sharing<Simplex>,
    left: &Term,
    right: &Term,
    order: bool,
    numbers: &mut Vec<Node>,
    trail: &mut Trail<R>,
) -> Result<(), AllocError>
    requires shared { IsShared (shared_in sharing.old) }
    requires left { IsTrue (is_ground left.now) }
    requires right { IsTrue (is_ground right.now) }
    ensures brings { OnOk result (Brings (shared_in sharing.old) (shared_in sharing.new)
        numbers.old.items numbers.new.items (subterms left.now ++ subterms right.now)
        (if order then left.now ∷ right.now ∷ [] else [])) }
    ensures walks { Walks (part_carried R.carried_node R.carried_group R.carried_share R.carried)
        trail.old.records trail.new.records sharing.old sharing.new }
{
    sharing.add_nodes(left, order, numbers, trail)?;
    sharing.add_nodes(right, order, numbers, trail)?;
    Ok(())
}

/// Makes the nodes of the terms in a distinction.
fn add_places<R: CarriesNodes + CarriesGroups + CarriesShare + Carries<SimplexRec>>(
    sharing: &mut Sharing<Simplex>,
    terms: &[Term],
    numbers: &mut Vec<Node>,
    trail: &mut Trail<R>,
) -> Result<(), AllocError>
    requires shared { IsShared (shared_in sharing.old) }
    requires ground { IsTrue (list_all is_ground terms.now) }
    ensures brings { OnOk result (Brings (shared_in sharing.old) (shared_in sharing.new)
        numbers.old.items numbers.new.items (flat_map subterms terms.now) []) }
    ensures walks { Walks (part_carried R.carried_node R.carried_group R.carried_share R.carried)
        trail.old.records trail.new.records sharing.old sharing.new }
{
    'terms: for term in terms {
        sharing.add_nodes(term, false, numbers, trail)?;
    }
    Ok(())
}
