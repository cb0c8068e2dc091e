//! What holds of kept formulas. The function states it, and does nothing.

ghost use Rattle.esc_standing.specs.Formulas.{KeptHaveTriggers};

use esc_term::closed_laws;
use esc_trigger::trigger_laws;

/// The triggers of what is kept hold the variables of its formula.
pub(crate) fn kept_laws()
    ensures triggers { KeptHaveTriggers }
{
    closed_laws();
    trigger_laws();
}
