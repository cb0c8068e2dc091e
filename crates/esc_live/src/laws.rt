//! What holds where records of a branch were taken back. The function states it, and does nothing.

ghost use Rattle.esc_live.specs.Laws.{BackIsBranch, BackIsSound, RewoundIsGiven};

/// A branch that was taken back to what promised all promises all, whatever was logged since, and
/// its arithmetic is given by the log.
pub fn live_laws()
    ensures branch { BackIsBranch }
    ensures sound { BackIsSound }
    ensures rewound { RewoundIsGiven }
{}
