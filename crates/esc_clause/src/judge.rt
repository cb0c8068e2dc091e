ghost use Rattle.std.specs.Prelude.{◌≡◌};
ghost use Rattle.esc_clause.specs.declared.truth.Truth.{Truth};
ghost use Rattle.esc_clause.specs.declared.occurrence.Occurrence.{Occurrence};

use crate::occurrence::Occurrence;
use crate::truth::Truth;

/// Who tells of each occurrence whether it has its sign.
pub trait Judge {
    // what the judge is asked under
    ghost ready: { Self → Type 0 };

    // whether the occurrence has its sign
    ghost judged: { Self → Occurrence → Truth };

    /// Whether the occurrence has its sign, as far as it is known.
    fn judge(&self, at: Occurrence) -> Truth
        requires ready { ready self.now }
        ensures { result ≡ judged self.now at };
}
