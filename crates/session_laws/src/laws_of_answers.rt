//! Laws of the answers of tasks, of any course. Each function does nothing: its contract is the law, and a proof above
//! gets it by calling the function.

ghost use Rattle.session_laws.specs.LawsOfAnswers.{ChecksAreExact, ChecksLeaveTheHost, CollectionsKeep};
ghost use Rattle.session_laws.specs.LawsOfAnswers.{CollectionsOnlyRemove, EachAnswerHasItsCause, RowsAskForObjects};

/// A check asks for objects alone, whatever its row is.
pub fn a_row_asks_for_objects()
    ensures { RowsAskForObjects }
{}

/// A check leaves the host as it was, also where it was stopped.
pub fn a_check_leaves_the_host()
    ensures { ChecksLeaveTheHost }
{}

/// A check without a fault succeeds exactly where its cached result and all that it asks for are there.
pub fn a_check_is_exact()
    ensures { ChecksAreExact }
{}

/// A collection that succeeds leaves exactly what is kept.
pub fn a_collection_leaves_what_it_keeps()
    ensures { CollectionsKeep }
{}

/// A collection removes nothing that is kept, and makes nothing, also where it was stopped.
pub fn a_collection_only_removes()
    ensures { CollectionsOnlyRemove }
{}

/// A task that came to its end is refused for the first cause among its entries, and succeeds without one.
pub fn each_answer_has_its_cause()
    ensures { EachAnswerHasItsCause }
{}
