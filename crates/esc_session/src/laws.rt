//! What holds of the sessions of a run. The function states it, and does nothing.

ghost use Rattle.esc_session.specs.Laws.{PopsGoBack};

/// A pop takes the search back to what it was before the push, whatever came in between.
pub fn session_laws()
    ensures { PopsGoBack }
{}
