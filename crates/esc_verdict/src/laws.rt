//! What holds of verdicts and of the rounds that lead to them. The functions state it, and do
//! nothing.

ghost use Rattle.esc_verdict.specs.Laws.{InvalidIsNotRefuted, PlainIsNotRefuted};
ghost use Rattle.esc_verdict.specs.Laws.{PlainRunsOutOfSplits};
ghost use Rattle.esc_verdict.specs.RoundLaws.{EmptyRoundIsSaturated, LogMayGrow, MatchedByMore};
ghost use Rattle.esc_verdict.specs.RoundLaws.{MatchedGrows, MatchedIsMade};
ghost use Rattle.esc_verdict.specs.RoundLaws.{RoundIsMatched, RoundIsWithin, RoundMayFollow};
ghost use Rattle.esc_verdict.specs.RoundLaws.{RoundsGrow, RoundsStay};

use esc_nodes::term_laws;
use esc_outcome::{found_laws, plain_laws};
use esc_rounds::round_laws;
use esc_sharing::model_laws;

/// A base to which there is a counterexample is not refuted, where no fact has arithmetic. From a
/// base without quantified formulas and maps with new values nothing is drawn: where it has no
/// arithmetic either, a search over it stops only where fewer splits are allowed than a tree can
/// have.
pub fn verdict_laws()
    ensures not_refuted { InvalidIsNotRefuted }
    ensures plain { PlainIsNotRefuted }
    ensures splits { PlainRunsOutOfSplits }
{
    found_laws();
    plain_laws();
    round_laws();
}

/// The first facts of a round may follow those that it is of, and lie within the limit there; where
/// it has none, nothing is due. Each was matched by these, and so it stays with more facts and literals; it is made on a branch where
/// the literals follow. Rounds that were made stay so with more literals, and the next comes behind
/// them. A legal log may grow by a fact that may follow some of its facts.
pub fn rounding_laws()
    ensures follow { RoundMayFollow }
    ensures within { RoundIsWithin }
    ensures matched { RoundIsMatched }
    ensures more { MatchedByMore }
    ensures grows { MatchedGrows }
    ensures made { MatchedIsMade }
    ensures stay { RoundsStay }
    ensures after { RoundsGrow }
    ensures log { LogMayGrow }
    ensures saturated { EmptyRoundIsSaturated }
{
    model_laws();
    round_laws();
    term_laws();
}
