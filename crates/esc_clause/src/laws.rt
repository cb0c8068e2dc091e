//! What holds of formulas and what they expand to. The function states it, and does nothing.

ghost use Rattle.esc_clause.specs.Laws.{ConsistentSaysNothingTwice, ExpansionIsComplete};
ghost use Rattle.esc_clause.specs.Laws.{ExpansionIsSound};

/// What a formula that has its sign in a model expands to is so in it. Where literals and classes
/// that say nothing twice cover what a formula expands to, they cover the formula, unless it is a
/// literal; and consistent ones say nothing twice.
pub fn expansion_laws()
    ensures sound { ExpansionIsSound }
    ensures complete { ExpansionIsComplete }
    ensures once { ConsistentSaysNothingTwice }
{}
