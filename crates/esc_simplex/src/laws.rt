//! What holds of values under assignments, of keys, and where records are taken back. The functions
//! state it, and do nothing.

ghost use Rattle.esc_simplex.specs.Keys.{KeysPart};
ghost use Rattle.esc_simplex.specs.Laws.{BackIsSound, FormHasFraction, RewindIsSound};

/// Under an assignment a term has the value of its form.
pub fn value_laws()
    ensures { FormHasFraction }
{}

/// What holds of a simplex between any two calls holds where records were taken back.
pub fn back_laws()
    ensures one { BackIsSound }
    ensures all { RewindIsSound }
{}

/// Unknowns whose keys by columns that can move differ, for one seed, differ somewhere within the
/// restrictions.
pub fn key_laws()
    ensures { KeysPart }
{}
