//! What holds of triggers. The function states it, and does nothing.

ghost use Rattle.esc_trigger.specs.Laws.{TriggersHoldAll};

/// The triggers of a closed formula are applications that hold each variable of the quantifier, and
/// no other.
pub fn trigger_laws()
    ensures hold_all { TriggersHoldAll }
{}
