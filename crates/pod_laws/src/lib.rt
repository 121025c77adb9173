//! What is true of every answer, over every legal history.
//!
//! A history may have been interleaved, stopped, faulted or refused memory in any way that the book allows. To a reader
//! of answers the crate promises, each at the command's last entry, what an ADD that was answered with a result has
//! made (`specs/Added.antt`), why an ADD is refused and what it leaves (`specs/Refused.antt`), what a DEL leaves
//! (`specs/Deleted.antt`), what a CHECK found (`specs/Checked.antt`), and what a GC leaves (`specs/Collected.antt`);
//! what a STATUS found (`specs/Available.antt`), and how a VERSION and a change from outside are answered
//! (`specs/Changed.antt`). Of every moment it promises that an attachment has only what its last ADD that began asks
//! for (`specs/AskedFor.antt`), that what is cached of it is the result of that ADD (`specs/CachedResults.antt`), that
//! one that is gone stays gone and a repeated DEL of it changes nothing (`specs/Repeated.antt`), which entries leave
//! the other attachments and what none owns (`specs/Apart.antt`), that asking changes nothing (`specs/Granted.antt`),
//! that each last address is a candidate of its set (`specs/Lasts.antt`), and of every run how many calls it makes at
//! most (`specs/Bounded.antt`). What the laws share of answers is in `specs/Answers.antt`. Each law stands on a
//! function that does nothing. What they say of the host at every moment and of ADD, DEL, CHECK and GC is, of one
//! world, `IsGuaranteed` (`specs/Guaranteed.antt`): every legal history has it, and the program's top call promises it
//! of its book.
//!
//! ```text
//! an_added_attachment_is_made() // a proof above gets the law by calling it
//! ```
#![tactic(auto)]

pub mod laws;

pub use laws::{
    a_check_holds_from_its_start, a_check_tells_what_the_host_holds, a_collection_makes_few_calls,
    a_deleted_attachment_is_gone, a_deletion_fails_by_fields_or_fault,
    a_deletion_removes_own_objects, a_gone_attachment_stays_gone, a_refused_attachment_is_undone,
    a_repeated_deletion_leaves_the_host, a_second_collection_finishes_the_first,
    a_status_tells_what_is_available, an_added_attachment_is_made,
    an_unfailed_del_is_answered_without_error, an_unrefused_add_is_answered_with_a_result,
    begin_leaves_the_host, each_add_has_most_calls, each_cached_result_is_its_adds,
    each_change_is_answered_by_its_reply, each_change_is_one_call, each_collection_fills_its_round,
    each_collection_takes_the_stale_alone, each_entry_keeps_the_rest, each_entry_leaves_others,
    each_last_is_a_candidate, each_link_is_wanted, each_question_leaves_the_host,
    each_run_is_bounded, each_version_is_the_lists, every_add_is_answered,
    every_collection_is_answered, every_collection_is_bounded, every_del_is_answered,
    every_legal_history_is_guaranteed, links_are_as_made_or_as_wanted, nothing_is_unasked,
};
