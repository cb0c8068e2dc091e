//! What holds of fractions. The functions state it, and do nothing.

ghost use Rattle.esc_frac.specs.Laws.{DifferenceFitsByStep, IsField, IsOrdered, KeepsWhole};

/// Fractions are an ordered field that holds the whole numbers.
pub fn field_laws()
    ensures field { IsField }
    ensures order { IsOrdered }
    ensures whole { KeepsWhole }
{}

/// To subtract is to add the negative, also in what must be in range.
pub fn range_laws()
    ensures difference { DifferenceFitsByStep }
{}
