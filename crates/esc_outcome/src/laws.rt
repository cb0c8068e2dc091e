//! What holds of what a search comes to. The functions state it, and do nothing.

ghost use Rattle.esc_outcome.specs.FoundLaws.{CounterexampleIsNotRefuted, RefutedIsValid};
ghost use Rattle.esc_outcome.specs.FreeLaws.{FreeHasNoJam};
ghost use Rattle.esc_outcome.specs.GrownLaws.{EmptyIsGrown, FirstIsLegal, GrownByFact};
ghost use Rattle.esc_outcome.specs.GrownLaws.{GrownByFirst, GrownBySplit, GrownElsewhere};
ghost use Rattle.esc_outcome.specs.GrownLaws.{SplitsRunOutEarly};
ghost use Rattle.esc_outcome.specs.JamLaws.{GivenAfterCall, GivenByMore, StopIsJam, ToldFollows};
ghost use Rattle.esc_outcome.specs.PlainLaws.{PlainHasFirstFacts, PlainIsNotStuck};
ghost use Rattle.esc_outcome.specs.PlainLaws.{PlainRunsOutOfSplits, PlainValidIsRefuted};
ghost use Rattle.esc_outcome.specs.Stopping.{StopsIsStopped};
ghost use Rattle.esc_outcome.specs.TreeLaws.{DecidedStays, NewSidesAreFree, PathBelow, PathsStay};
ghost use Rattle.esc_outcome.specs.TreeLaws.{RefutedByMore, RefutedStays, RootCloses, SidesClose};
ghost use Rattle.esc_outcome.specs.TreeLaws.{TreeGrows, TreeIsSmall, TreeStays};

/// A stop of the arithmetic is a jam of the formulas that gave it its terms, whichever call
/// answered it, and the pairs that it was told follow from these formulas where its literals do.
/// Formulas without arithmetic have no jam.
pub fn jam_laws()
    ensures jam { StopIsJam }
    ensures stopped { StopsIsStopped }
    ensures told { ToldFollows }
    ensures more { GivenByMore }
    ensures after_call { GivenAfterCall }
    ensures free { FreeHasNoJam }
{}

/// What is decided on the paths of a tree of splits, and refuted there, stays so when splits and
/// formulas come behind the others; where both sides of a split are refuted, so is where it stands.
/// A split may come where none stands and its occurrence is not decided, and a tree has fewer
/// splits than two to the number of occurrences.
pub fn tree_laws()
    ensures below { PathBelow }
    ensures paths { PathsStay }
    ensures decided { DecidedStays }
    ensures more { RefutedByMore }
    ensures stays { RefutedStays }
    ensures closes { SidesClose }
    ensures root { RootCloses }
    ensures grows { TreeGrows }
    ensures tree_stays { TreeStays }
    ensures free { NewSidesAreFree }
    ensures small { TreeIsSmall }
{}

/// A branch begins empty, and grows by a fact that what stands before it makes, by a split of an
/// occurrence that is not decided, and by going to a side whose turn has come. Splits run out only
/// where fewer are allowed than a tree can have.
pub fn branch_laws()
    ensures first { FirstIsLegal }
    ensures empty { EmptyIsGrown }
    ensures by_first { GrownByFirst }
    ensures by_fact { GrownByFact }
    ensures by_split { GrownBySplit }
    ensures elsewhere { GrownElsewhere }
    ensures splits { SplitsRunOutEarly }
{}

/// A legal log whose formulas are refuted shows its goal valid. A base to which there is a
/// counterexample is not refuted, where no fact has arithmetic.
pub fn found_laws()
    ensures valid { RefutedIsValid }
    ensures not_refuted { CounterexampleIsNotRefuted }
{}

/// From a base without quantified formulas and maps with new values nothing is drawn, so that a
/// valid log refutes it, and splits run out only where fewer are allowed than a tree can have.
/// Where it has no arithmetic either, none of it is stuck.
pub fn plain_laws()
    ensures first { PlainHasFirstFacts }
    ensures valid { PlainValidIsRefuted }
    ensures not_stuck { PlainIsNotStuck }
    ensures splits { PlainRunsOutOfSplits }
{}
