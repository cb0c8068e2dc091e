//! What holds of searches. The function states it, and does nothing.

ghost use Rattle.esc_search.specs.Levels.{GoesBackTo};
ghost use Rattle.esc_search.specs.Proving.{ReadyIsAlike};
ghost use Rattle.esc_search.specs.declared.search.Search.{Search as Searches};

/// What is ready for one base is ready for others, and a search can go back to where it stands.
pub fn search_laws()
    ensures ready { ReadyIsAlike }
    ensures here { (s : Searches) → GoesBackTo s s }
{}
