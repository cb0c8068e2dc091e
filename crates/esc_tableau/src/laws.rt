//! What holds of the solutions, the restrictions and the sample of a tableau. The function states
//! it, and does nothing.

ghost use Rattle.esc_tableau.specs.Laws.{RestrictedAreThere, SampledOwnsRow, SolutionsAreLocal};
ghost use Rattle.esc_tableau.specs.Moving.{MovesPart};

/// Whether a point is a solution depends on its values of the tableau's unknowns alone, and who is
/// restricted is one of them. An unknown whose sample is not 0 owns a row. Two that rise differently
/// with a column that can move differ somewhere within the restrictions.
pub fn table_laws()
    ensures local { SolutionsAreLocal }
    ensures there { RestrictedAreThere }
    ensures sampled { SampledOwnsRow }
    ensures moves { MovesPart }
{}
