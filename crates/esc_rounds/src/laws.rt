//! What holds of rounds. The function states it, and does nothing.

ghost use Rattle.esc_rounds.specs.Laws.{RoundsAreLegal, RoundsAreMet, RoundsAreShallow};

use esc_nodes::term_laws;

/// The facts of a round may follow the live ones in a log, in their order, and lie within the limit
/// there; what makes them is met where the classes follow.
pub fn round_laws()
    ensures legal { RoundsAreLegal }
    ensures shallow { RoundsAreShallow }
    ensures met { RoundsAreMet }
{
    term_laws();
}
