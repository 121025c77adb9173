//! Laws of answers, each carried by a function that does nothing.
//!
//! What is said of a host at a command's last entry holds of it whatever other commands did since. `ok` is the answer
//! `Yes`, as it is printed; a command that its list disables is skipped, which is another answer.

ghost use Rattle.pod_laws.specs.Added.{WasAdded};
ghost use Rattle.pod_laws.specs.Apart.{EachCollectionTakesTheStaleAlone, EachEntryKeepsTheRest, EachEntryLeavesOthers};
ghost use Rattle.pod_laws.specs.AskedFor.{EachLinkIsWanted, LinksAreMadeOrWanted, NothingIsUnasked};
ghost use Rattle.pod_laws.specs.Available.{WasAvailable};
ghost use Rattle.pod_laws.specs.Bounded.{EachAddHasMost, EachChangeIsOneCall, EachRunIsBounded};
ghost use Rattle.pod_laws.specs.CachedResults.{EachCachedResultIsItsAdds};
ghost use Rattle.pod_laws.specs.Changed.{ChangesAreAnswered, VersionsAreTheLists};
ghost use Rattle.pod_laws.specs.Checked.{ChecksHoldFromTheirStart, WasChecked};
ghost use Rattle.pod_laws.specs.Collected.{CollectionsAreAnswered, CollectionsAreBounded, CollectionsAreShort};
ghost use Rattle.pod_laws.specs.Collected.{CollectionsFillTheirRounds, CollectionsInARowKeep};
ghost use Rattle.pod_laws.specs.Deleted.{AnswersOfDel, UnfailedIsDeleted, EachDeletionIsOwn, WasDeleted, WasNotDeleted};
ghost use Rattle.pod_laws.specs.Granted.{EachQuestionLeavesTheHost};
ghost use Rattle.pod_laws.specs.Guaranteed.{EveryLegalHistoryIsGuaranteed};
ghost use Rattle.pod_laws.specs.Lasts.{EachLastIsCandidate};
ghost use Rattle.pod_laws.specs.Refused.{AnswersOfAdd, BeginLeavesTheHost, UnrefusedIsAdded, WasRefused};
ghost use Rattle.pod_laws.specs.Repeated.{GoneStaysGone, RepeatedDeletionsLeave};

use host_local::laws::candidates_are_given;

// ---- ADD

/// An ADD that was answered with a result was leased one address a range set. These addresses decide the result, and at
/// the command's last entry its attachment has exactly the objects that they ask for, list by list, in order.
pub fn an_added_attachment_is_made()
    ensures { WasAdded }
{}

/// An ADD is refused by its fields, with no call made, or by its first entry that is not granted, which decides the
/// code and its details. Where that is Begin it is the only entry. Else nothing of the attachment is left at the last
/// entry, unless a later entry is a fault.
pub fn a_refused_attachment_is_undone()
    ensures { WasRefused }
{}

/// Begin leaves the host, whatever it replies.
pub fn begin_leaves_the_host()
    ensures { BeginLeavesTheHost }
{}

/// An ADD is answered with a result or a refusal, unless memory was refused or it was stopped.
pub fn every_add_is_answered()
    ensures { AnswersOfAdd }
{}

/// An ADD with good fields and no refusing entry is answered with a result, unless memory was refused or it was
/// stopped.
pub fn an_unrefused_add_is_answered_with_a_result()
    ensures { UnrefusedIsAdded }
{}

// ---- DEL

/// A DEL that was answered `ok` had good fields and no fault, and nothing of its attachment is left at its last entry.
pub fn a_deleted_attachment_is_gone()
    ensures { WasDeleted }
{}

/// A DEL is refused by its fields, with no call made, or at its first fault.
pub fn a_deletion_fails_by_fields_or_fault()
    ensures { WasNotDeleted }
{}

/// A DEL is answered `ok` or with a refusal, unless memory was refused or it was stopped. Its namespace is not asked
/// for.
pub fn every_del_is_answered()
    ensures { AnswersOfDel }
{}

/// A DEL with good fields and no fault is answered `ok`, unless memory was refused or it was stopped.
pub fn an_unfailed_del_is_answered_without_error()
    ensures { UnfailedIsDeleted }
{}

/// Each entry of a DEL removes own objects alone, and leaves the host where there are none.
pub fn a_deletion_removes_own_objects()
    ensures { EachDeletionIsOwn }
{}

/// After the last entry of a DEL that was answered `ok`, each entry of a DEL of its attachment leaves the host as it
/// is, until an ADD of that attachment has begun.
pub fn a_repeated_deletion_leaves_the_host()
    ensures { RepeatedDeletionsLeave }
{}

// ---- GC

/// A GC is refused with no call made where its list is older than the verb (code 1), and skipped so where a newer
/// list disables it. Else it makes calls, and is answered `ok` where it met no fault: then the host right
/// after its last entry is the one right before its first without the objects of stale attachments. Where it met
/// faults, its error (code 103) names them all, and a call about each such object that is left was faulty. So it
/// is unless memory was refused or it was stopped.
pub fn every_collection_is_answered()
    ensures { CollectionsAreAnswered }
{}

/// A GC that made a call, wherever it was stopped, lost nothing that it is to keep, and added nothing.
pub fn every_collection_is_bounded()
    ensures { CollectionsAreBounded }
{}

/// A GC makes at most six calls; for each stale attachment that owned an object at its start six more than the kinds of
/// a DEL, counted plugin by plugin and the cached result last; and one for each object that is not kept.
pub fn a_collection_makes_few_calls()
    ensures { CollectionsAreShort }
{}

/// The host right before the first entry of a GC is the one at the start of its round, and the host right after its
/// last entry is the one at the start of the next round.
pub fn each_collection_fills_its_round()
    ensures { CollectionsFillTheirRounds }
{}

/// A GC that is answered `ok` leaves what a GC of the round before it, with the same network and valid
/// list, was to keep of the host at the start of that round, whatever that one came to, also where it made no call.
pub fn a_second_collection_finishes_the_first()
    ensures { CollectionsInARowKeep }
{}

// ---- every moment

/// At every moment an attachment has nothing, or all that it has is asked for by one ADD: the last one of the
/// attachment whose Begin was done, with the addresses that it was leased so far. But for its links it has, list by
/// list, a part of what is asked for, in that order.
pub fn nothing_is_unasked()
    ensures { NothingIsUnasked }
{}

/// At every moment what is cached of an attachment is what that ADD caches by its list, its namespace, its port
/// mappings and the addresses that it was leased: one candidate a range set. These are the cached result's, in order.
pub fn each_cached_result_is_its_adds()
    ensures { EachCachedResultIsItsAdds }
{
    candidates_are_given();
}

/// An attachment that has nothing at some moment has nothing until a call of an ADD of that attachment is granted after
/// its Begin, whatever other commands and changes from outside do.
pub fn a_gone_attachment_stays_gone()
    ensures { GoneStaysGone }
{}

/// Where at most one plugin of a list sets values of links, the links that an ADD asks for at a moment are all as they
/// were made, or all as they are wanted, with those values.
pub fn each_link_is_wanted()
    ensures { EachLinkIsWanted }
{}

/// So are the links of every attachment at every moment: `tuning` alone sets such values, and each list of a plan has
/// it at most once.
pub fn links_are_as_made_or_as_wanted()
    ensures { LinksAreMadeOrWanted }
{}

/// Each entry of an ADD, a DEL, a CHECK, a STATUS or a VERSION leaves the objects of every other attachment as they
/// are, list by list.
pub fn each_entry_leaves_others()
    ensures { EachEntryLeavesOthers }
{}

/// Each entry of a GC leaves as it is, list by list, all but the objects of the attachments of its network that its
/// valid list doesn't name.
pub fn each_collection_takes_the_stale_alone()
    ensures { EachCollectionTakesTheStaleAlone }
{}

/// No entry removes what attachments share, and each entry of a verb of the CNI specification leaves what was made
/// outside as it is, list by list. What was made outside goes only by a change from outside: a namespace that goes, or
/// a link of one.
pub fn each_entry_keeps_the_rest()
    ensures { EachEntryKeepsTheRest }
{}

/// Each address that a pool leased last is a candidate of its set.
pub fn each_last_is_a_candidate()
    ensures { EachLastIsCandidate }
{}

// ---- how many calls

/// A run makes a bounded number of calls, whatever others do meanwhile. With p a bound on the calls of an ADD that
/// isn't refused, whatever addresses it is leased, and c the kinds of a DEL of its list, an ADD makes at most
/// 2p + c + 1; a DEL c + 1 and one an object of its attachment at its first call, a pair of links as one, with what
/// lies on them; a CHECK 2 and one an object of its cached share; a STATUS 1 and one a range set; a VERSION none.
#[tactic(auto, using(crate::proofs::Bounded::Verbs::run_is_bounded))]
pub fn each_run_is_bounded()
    ensures { EachRunIsBounded }
{}

/// Such a p is `most_calls`: what the list and the command's port mappings have room for.
#[tactic(auto, using(crate::proofs::Bounded::Verbs::each_add_has_most))]
pub fn each_add_has_most_calls()
    ensures { EachAddHasMost }
{}

/// A change from outside makes at most one call.
#[tactic(auto, using(crate::proofs::Bounded::Verbs::change_is_one_call))]
pub fn each_change_is_one_call()
    ensures { EachChangeIsOneCall }
{}

// ---- VERSION and changes from outside

/// A VERSION makes no call and is answered the version of its list, unless memory was refused or it was stopped.
pub fn each_version_is_the_lists()
    ensures { VersionsAreTheLists }
{}

/// NSADD, NSDEL, DROP and FLUSH are refused by their fields (code 4), with no call made, or make the one change that
/// they ask for, whose reply decides: the namespace isn't there (code 100), a namespace of the name is (code 101), the
/// call was a fault (code 103), or what was to be taken away isn't there (code 105); any other reply is answered `ok`.
/// A FLUSH that names no table makes no call and is answered `ok`. So it is unless memory was refused or the command
/// was stopped.
pub fn each_change_is_answered_by_its_reply()
    ensures { ChangesAreAnswered }
{}

// ---- CHECK and STATUS

/// Each entry of a CHECK, a STATUS or a VERSION leaves the host as it is.
pub fn each_question_leaves_the_host()
    ensures { EachQuestionLeavesTheHost }
{}

/// A STATUS of a list that isn't older than it ends at a fault (code 103). Without one it is answered `ok` where each
/// range set of its list has a free address in the host at its entries and the master of `macvlan` is there, and else
/// refused for the first that isn't available (code 50): the range sets in order, and then the master. An older list
/// refuses it with no call made (code 1). So it is unless memory was refused or it was stopped.
pub fn a_status_tells_what_is_available()
    ensures { WasAvailable }
{}

/// Bad fields refuse a CHECK (code 4), and with good ones a list that disables it skips it, both with no call made.
/// Where its list doesn't disable it, it ends at a fault (code 103). Without one it is answered `ok` where its
/// attachment has a cached result, and the host at its last entry holds all that the cached result says that there is.
/// With no cached result the attachment is unknown (code 3); else the first object that isn't there is named (code
/// 110): the bridge, links, addresses, routes, rules, settings and leases. So it is unless memory was refused or it was
/// stopped, whatever other commands did between its entries.
pub fn a_check_tells_what_the_host_holds()
    ensures { WasChecked }
{}

/// What a CHECK that made a call asks for is in the host right before its first entry as it is right after its last,
/// whatever other commands did between and also where it was stopped: its attachment has one cached result in both, and
/// both hold all that the cached result says that there is, or neither does. So it is also with the bridge, which isn't
/// the attachment's own: an ADD ensures it before it caches its result, and nothing takes a bridge of the host.
pub fn a_check_holds_from_its_start()
    ensures { ChecksHoldFromTheirStart }
{}

// ---- all of it

/// The guarantee of every legal history, sentence by sentence: `IsGuaranteed`.
pub fn every_legal_history_is_guaranteed()
    ensures { EveryLegalHistoryIsGuaranteed }
{
    each_cached_result_is_its_adds();
}
