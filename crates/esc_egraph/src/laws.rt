ghost use Rattle.esc_egraph.specs.Laws.{EqualsHaveOneValue, MadeHaveOneValue};

/// Does nothing: the contract says what holds of the values of classes.
pub fn class_laws()
    ensures equals { EqualsHaveOneValue }
    ensures made { MadeHaveOneValue }
{}
