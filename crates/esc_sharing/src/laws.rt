//! What holds of models, classes and assignments where terms are arithmetic, and where records are
//! taken back. The functions state it, and do nothing.

ghost use Rattle.esc_cover.specs.Arithmetic.{InPlay};
ghost use Rattle.esc_cover.specs.Laws.{CoverIsSound, TogetherHasOneValue};
ghost use Rattle.esc_sharing.specs.ModelLaws.{AdmitsWhatSuits, ConsistentStays, LeastStays};
ghost use Rattle.esc_sharing.specs.ModelLaws.{PartedStays, SatisfiesStays};
ghost use Rattle.esc_sharing.specs.Shared.{IsShared, seen};
ghost use Rattle.esc_sharing.specs.Staying.{MarkStays, PromiseStays};
ghost use Rattle.esc_sharing.specs.declared.sharing.Sharing.{Sharing as Shares};

use crate::theory::Theory;

/// What literals and their least classes say is so in each model of the literals, whichever terms
/// are arithmetic.
pub fn model_laws()
    ensures one_value { (play : InPlay) → TogetherHasOneValue play }
    ensures sound { (play : InPlay) → CoverIsSound play }
{}

/// Quantified formulas among literals play no role for classes and assignments, but that none may
/// have both signs.
pub fn unquantified_laws()
    ensures least { LeastStays }
    ensures consistent { ConsistentStays }
    ensures satisfies { SatisfiesStays }
    ensures parted { PartedStays }
{}

/// An open sharing admits just the assignments that do what its literals and its classes ask.
pub fn admitted_laws<T: Theory>()
    ensures { (s : Shares T) → IsShared (seen T.sound T.admits T.numbers s)
        → AdmitsWhatSuits (seen T.sound T.admits T.numbers s) }
{}

/// What a sharing promises, another that is the same in what taking back restores promises too. So
/// a mark at which all was promised stays one through each call, whatever it answers, and all is
/// promised again where the sharing is taken back to it.
pub fn staying_laws<T: Theory>()
    ensures same { PromiseStays T.undo T.sound T.admits T.numbers }
    ensures marks { MarkStays T.undo T.sound T.admits T.numbers }
{}
