//! What holds of counterexamples. The functions state it, and do nothing.

ghost use Rattle.std.specs.Prelude.{List};
ghost use Rattle.esc_term.specs.declared.term.Term.{Term};
ghost use Rattle.esc_cover.specs.Arithmetic.{without_numbers};
ghost use Rattle.esc_cover.specs.Laws.{CongruentTestsMeet, CoverIsSound, CoverStays, NotRefuted, TogetherHasOneValue};

/// A counterexample to formulas without arithmetic shows that they are not refuted. Numerals may
/// stand in them.
pub fn counterexample_laws()
    ensures not_refuted { NotRefuted }
{}

/// What literals and their least classes say is so in each model of the literals, where arithmetic
/// plays no role, and more literals with coarser classes that agree still say it. There is a finest
/// test of which terms belong together, since congruent tests meet.
pub fn cover_laws()
    ensures one_value { (terms : List Term) → TogetherHasOneValue (without_numbers terms) }
    ensures sound { (terms : List Term) → CoverIsSound (without_numbers terms) }
    ensures stays { CoverStays }
    ensures meet { CongruentTestsMeet }
{}
