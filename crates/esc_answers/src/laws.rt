//! What holds of answers. The function states it, and does nothing.

ghost use Rattle.esc_answers.specs.Laws.{AnswersAreSharp, AnswersAreSound};

use esc_outcome::plain_laws;
use esc_report::goal_laws;
use esc_verdict::verdict_laws;

/// A goal without quantifiers and map writes, with such assumptions, is valid only where its
/// negation is refuted with what is assumed. Where both have no arithmetic but small numerals, it
/// is also invalid only where they are not refuted, and a search for it stops only where fewer
/// splits are allowed than their occurrences can need.
pub fn answer_laws()
    ensures sound { AnswersAreSound }
    ensures sharp { AnswersAreSharp }
{
    goal_laws();
    plain_laws();
    verdict_laws();
}
