//! The quantified literals of a branch.

ghost use Rattle.std.specs.Prelude.{◌≡◌, Some, IsTrue, IfOk};
ghost use Rattle.std.specs.List.{All, AllZip, Any, Contains, filter};
ghost use Rattle.std.specs.Option.{option_and_then};
ghost use Rattle.esc_rounds.specs.Branch.{formula_kept, is_quantified};
ghost use Rattle.esc_standing.specs.Formulas.{AreBeside};
ghost use Rattle.esc_standing.specs.Literals.{IsKeptLiteral};

use crate::formulas::{KeptFormulas, place_of};
use esc_fact::Base;
use esc_rounds::Literal;
use esc_term::{Formula, Item};
use sqlite_items::Items;
use std::alloc::{AllocError, Global};

/// Whether the formula of the item is quantified.
fn is_quantified(item: &Item) -> bool
    ensures { result ≡ is_quantified item.now }
{
    matches!(item.formula, Formula::Forall(_) | Formula::Exists(_))
}

/// The literals of the quantified items, in order. It fails only where memory is wanting.
pub(crate) fn literals_of(
    alloc: Global,
    base: &Base,
    formulas: &KeptFormulas,
    items: &[Item],
) -> Result<Items<Literal>, AllocError>
    requires beside { AreBeside base.now formulas.now.kept formulas.now.closed }
    requires kept { All (λ item. IsTrue (is_quantified item)
        → Any (λ k. formula_kept base.now k ≡ Some item.formula) formulas.now.kept) items.now }
    ensures { IfOk result (λ literals.
        AllZip (IsKeptLiteral base.now formulas.now.kept) (filter is_quantified items.now)
        literals) }
{
    let mut literals = Items::new(alloc);
    'items: for item in items {
        if is_quantified(item) {
            let Some(place) = place_of(formulas, &item.formula) else {
                unreachable!()
            };
            literals.push(Literal {
                formula: place,
                holds: item.positive,
            })?;
        }
    }
    Ok(literals)
}
