//! Of which literals a sharing speaks. The function states it, and does nothing.

ghost use Rattle.esc_said.specs.Speaking.{SharingSpeaks};

/// Who has the graph, the groups and the asserted literals of an open sharing speaks for the
/// literals of that sharing, with any quantified ones beside them.
pub fn saying_laws()
    ensures { SharingSpeaks }
{}
