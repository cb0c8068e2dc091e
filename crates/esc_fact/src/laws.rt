//! What holds of facts and their formulas. The function states it, and does nothing.

ghost use Rattle.esc_fact.specs.Laws.{FactIsClosed};

use esc_term::closed_laws;

/// Facts over closed formulas have closed formulas.
pub fn fact_laws()
    ensures closed { FactIsClosed }
{
    closed_laws();
}
