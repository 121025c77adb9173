//! Laws on how a run ends, and on a book that is over. A law is a function that does nothing: a caller gets it by
//! calling it.

ghost use Rattle.tool_run.specs.Laws.{EachOutcomeIsOfItsVerdict, EachCommandIsAnsweredAtTheEnd};
ghost use Rattle.tool_run.specs.Laws.{EachStatusIsOfItsVerdict, RefusedWordsAreReported};

use pod_workers::legal_worlds_meet_each_clause;

/// Where the files are told or none is named, and no read and no write failed, the status of a run is one of those for
/// what its words and files come to, or 6 (out of memory). Where no file is named, it isn't asked that no read failed.
pub fn an_undisturbed_status_is_of_its_verdict()
    ensures { EachStatusIsOfItsVerdict }
{}

/// A run whose words aren't taken says so (2), unless the sink gave up (5) or memory ran out (6).
pub fn refused_words_are_reported()
    ensures { RefusedWordsAreReported }
{}

/// Where the files are told or none is named, no read failed and memory didn't run out (6), a run leaves a book of the
/// plan that its words and files come to, or the session, and nothing where they come to neither. So it is also where
/// the sink gave up (5).
pub fn each_outcome_is_of_its_verdict()
    ensures { EachOutcomeIsOfItsVerdict }
{}

/// In a book with every round over each command has an answer, so the text has a line for each.
pub fn each_command_is_answered_at_the_end()
    ensures { EachCommandIsAnsweredAtTheEnd }
{
    legal_worlds_meet_each_clause();
}
