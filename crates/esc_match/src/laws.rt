//! What holds of matches. The function states it, and does nothing.

ghost use Rattle.esc_match.specs.Laws.{MatchesAreCongruent, MatchesStay, UnchangedMatchesAreOld};
ghost use Rattle.esc_match.specs.OfTerms.{MatchesAreOfTerms, TermMatchesAreOfNodes};

/// A trigger matches nodes exactly where it matches their terms, modulo the same classes. A match
/// is one for all nodes of the same classes, and stays one with more nodes and coarser classes; one
/// of nodes whose classes did not change was one before.
pub fn match_laws()
    ensures terms { MatchesAreOfTerms }
    ensures nodes { TermMatchesAreOfNodes }
    ensures congruent { MatchesAreCongruent }
    ensures stay { MatchesStay }
    ensures old { UnchangedMatchesAreOld }
{}
