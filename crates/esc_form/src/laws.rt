//! What holds of what is read. The function states it, and does nothing.

ghost use Rattle.esc_form.specs.Laws.{CommandsAreClosed, ReadingsStay, TablesAreNumbered};

pub fn reading_laws()
    ensures closed { CommandsAreClosed }
    ensures numbered { TablesAreNumbered }
    ensures stay { ReadingsStay }
{}
