//! What holds of plain goals, and of the names in a printed text. The functions state it, and do
//! nothing.

ghost use Rattle.esc_report.specs.Laws.{FreeGoalIsPlainAndFree, PlainGoalIsPlain};
ghost use Rattle.esc_report.specs.PrintingLaws.{PrintedNamesReadBack};

use esc_read::term_laws;

/// From a goal and assumptions without quantifiers and map writes nothing is drawn. Where they have
/// no arithmetic but small numerals, their base has none either.
pub fn goal_laws()
    ensures plain { PlainGoalIsPlain }
    ensures free { FreeGoalIsPlainAndFree }
{}

/// A printed name reads as that name.
pub fn printing_laws()
    ensures { PrintedNamesReadBack }
{
    term_laws();
}
