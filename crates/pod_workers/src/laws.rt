//! Laws over every legal history, each carried by a function that does nothing.

ghost use Rattle.pod_workers.specs.Facts.{EachAnswerIsGiven, EachCommandIsOpenAfterItsEntry, EachEntryIsMade};
ghost use Rattle.pod_workers.specs.Facts.{EachPrefix, EachStopIsCounted, EachWorldOfTheClausesIsLegal};
ghost use Rattle.pod_workers.specs.Facts.{EveryAnswerIsDue, EveryEntryFollows, LegalWorldsMeetEachClause};
ghost use Rattle.pod_workers.specs.Laws.{EachNetworkCommandHasItsList, EveryCallMayBeMade, EveryHostIsSound};
ghost use Rattle.pod_workers.specs.Laws.{NoAddressIsLeasedTwice};
ghost use Rattle.pod_workers.specs.Order.{FileOrderIsKept, OneOutcome};
ghost use Rattle.pod_workers.specs.AddCalls.{AddCallsMakeTheWanted};

/// Every host that a well-formed plan comes to is sound, whichever commands stepped in which order, were stopped, met
/// faults or were refused memory.
#[tactic(auto, using(crate::proofs::Hosts::Sound::sound_host))]
pub fn every_host_is_sound()
    ensures { EveryHostIsSound }
{}

/// No network ever has an address leased twice.
#[tactic(auto, using(crate::proofs::Hosts::Sound::no_address_twice))]
pub fn no_address_is_leased_twice()
    ensures { NoAddressIsLeasedTwice }
{}

/// Each call that a ready command makes, unless it is a fault, may be made in the host that it finds.
#[tactic(auto, using(crate::proofs::Hosts::Sound::allowed_next))]
pub fn every_call_may_be_made()
    ensures { EveryCallMayBeMade }
{}

/// The network of each command whose verb speaks of one has its list in the plan.
#[tactic(auto, using(crate::proofs::Plans::Listed::listed_network))]
pub fn each_network_command_has_its_list()
    ensures { EachNetworkCommandHasItsList }
{}

/// Whichever addresses an ADD is leased, its calls are its attachment's own or ensure what all attachments share, are
/// well formed, make objects of the kinds alone that a DEL of its list takes back, and make just the wanted objects.
#[tactic(auto, using(crate::proofs::Hosts::AddCalls::make_the_wanted))]
pub fn the_calls_of_an_add_make_the_wanted()
    ensures { AddCallsMakeTheWanted }
{}

/// Each entry has the call of its command's script and the kernel's reply in the host there, or a fault that the
/// command lists.
#[tactic(auto, using(crate::proofs::Worlds::Facts::each_follows))]
pub fn every_entry_follows()
    ensures { EveryEntryFollows }
{}

/// Each answer is the script's, a stop by the command's own number of calls or with its round, or out of memory.
#[tactic(auto, using(crate::proofs::Worlds::AnswersDue::answer_is_due))]
pub fn every_answer_is_due()
    ensures { EveryAnswerIsDue }
{}

/// A stopped command is answered how many calls it made: as many as its own `stop`, or no more than the number of the
/// entry with which its round was stopped.
#[tactic(auto, using(crate::proofs::Worlds::Stopped::each_stop_is_counted))]
pub fn each_stop_is_counted()
    ensures { EachStopIsCounted }
{}

/// Each prefix of a history is the history of a legal world whose answers stand later, so what is true of every legal
/// world was true at every moment.
#[tactic(auto, using(crate::proofs::Worlds::Prefixes::each_prefix))]
pub fn each_prefix_is_legal()
    ensures { EachPrefix }
{}

/// Each entry was made by a command that was ready in the prefix before it.
#[tactic(auto, using(crate::proofs::Worlds::Prefixes::each_made))]
pub fn each_entry_is_made()
    ensures { EachEntryIsMade }
{}

/// Right after each of its entries a command has no answer.
#[tactic(auto, using(crate::proofs::Worlds::Prefixes::each_open_after))]
pub fn each_command_is_open_after_its_entry()
    ensures { EachCommandIsOpenAfterItsEntry }
{}

/// Each answer was given in a prefix that has all entries of its command.
#[tactic(auto, using(crate::proofs::Worlds::Prefixes::each_answered))]
pub fn each_answer_is_given()
    ensures { EachAnswerIsGiven }
{}

/// A world that allowed steps reach meets each clause of what a legal history is: its entries, rounds, containers,
/// stops and answers.
pub fn legal_worlds_meet_each_clause()
    ensures { LegalWorldsMeetEachClause }
{}

/// And a world that meets each clause is one that allowed steps reach.
#[tactic(auto, using(crate::proofs::Worlds::Reached::is_reached_by_steps))]
pub fn each_world_of_the_clauses_is_legal()
    ensures { EachWorldOfTheClausesIsLegal }
{}

/// A plan that is carried out in file order to its end, with memory, has one history and one list of answers.
#[tactic(auto, using(crate::proofs::InOrder::OneOutcome::one_outcome))]
pub fn one_outcome()
    ensures { OneOutcome }
{}

/// A step of the first open command of a round keeps the order of the file.
pub fn file_order_is_kept()
    ensures { FileOrderIsKept }
{}
