//! What holds of linear forms. The functions state it, and do nothing.

ghost use Rattle.esc_linear.specs.Laws.{DifferenceHasValue, DifferenceIsNormal, FormHasValue, FormIsLin};

/// The form of a term has its linear meaning: its constant, a whole coefficient for each term that
/// arithmetic does not look into, each once and none of them 0. In each model it has the term's
/// value.
pub fn form_laws()
    ensures linear { FormIsLin }
    ensures value { FormHasValue }
{}

/// A difference of forms has the difference of their values, and each term once where the first
/// does.
pub fn minus_laws()
    ensures value { DifferenceHasValue }
    ensures normal { DifferenceIsNormal }
{}
