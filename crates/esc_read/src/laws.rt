//! What holds of tokens and terms that are read. The function states it, and does nothing.

ghost use Rattle.esc_read.specs.Laws.{BareNamesAreNames, VariablesAreInScope};

pub fn term_laws()
    ensures names { BareNamesAreNames }
    ensures in_scope { VariablesAreInScope }
{}
