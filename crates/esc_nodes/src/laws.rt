ghost use Rattle.esc_nodes.specs.Laws.{TermsStay, TermsAreBuilt, TermsAreOnce, TermsAreGround};

/// Does nothing: the contract says what holds of the terms of nodes.
pub fn term_laws()
    ensures stay { TermsStay }
    ensures built { TermsAreBuilt }
    ensures once { TermsAreOnce }
    ensures ground { TermsAreGround }
{}
