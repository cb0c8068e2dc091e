//! What holds of runs. The function states it, and does nothing.

ghost use Rattle.esc_top.specs.Laws.{RunsAreSharp, RunsAreSound, StatusIsDue};

use esc_answers::answer_laws;

/// Where no fault and no want of memory stops a run, it ends with the one status for which words
/// and bytes call. A goal without quantifiers and map writes is said to be valid only where its
/// negation is refuted with what is assumed when it is asked, if that has none either. Where both
/// have no arithmetic but small numerals, it is also said to be invalid only where they are not
/// refuted, and a search for it stops only where the words allow fewer splits than their
/// occurrences can need.
pub fn run_laws()
    ensures status { StatusIsDue }
    ensures sound { RunsAreSound }
    ensures sharp { RunsAreSharp }
{
    answer_laws();
    esc_form::reading_laws();
    esc_sexp::reading_laws();
}
