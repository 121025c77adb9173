//! A book in numbers.

ghost use Rattle.std.specs.Prelude.{◌≡◌, ◌++◌, false, length, IfOk, OnOk};
ghost use Rattle.std.specs.List.{count_by};
ghost use Rattle.serde_json.specs.View.{view};
ghost use Rattle.serde_json.specs.Written.{has_float};
ghost use Rattle.pod_text.specs.Summary.{is_done, summary_data, summary_line};
ghost use Rattle.pod_workers.specs.Plans.{commands_of};
ghost use Rattle.pod_workers.specs.World.{host_of};

use cni_addr::NoMemory;
use cni_errors::Answer;
use cni_json::JsonObject;
use kernel_model::{Host, Kernel};
use kernel_text::push_line;
use pod_workers::{Book, legal_worlds_meet_each_clause};
use serde_json::Value;
use std::alloc::Global;

/// Appends the line of numbers, by the book's host.
#[tactic(auto, using(crate::proofs::Whole::summary_is_whole))]
pub(crate) fn push_summary<K: Kernel + Drop>(
    alloc: Global,
    book: &Book<K>,
    host: &Host,
    lines: &mut Vec<u8>,
) -> Result<(), NoMemory>
    requires { host.now ≡ host_of book.now }
    ensures { OnOk result (lines.new.items ≡ lines.old.items ++ summary_line book.now) }
{
    let value = summary_value(alloc, book, host)?;
    push_line(alloc, &value, lines)
}

#[tactic(auto, using(crate::proofs::Whole::summary_is_whole), unfolding(crate::specs::Summary::summary_data))]
fn summary_value<K: Kernel + Drop>(
    alloc: Global,
    book: &Book<K>,
    host: &Host,
) -> Result<Value, NoMemory>
    requires { host.now ≡ host_of book.now }
    ensures json { IfOk result (λ v. view v ≡ summary_data book.now) }
    ensures numbers { IfOk result (λ v. has_float (view v) ≡ false) }
{
    let calls = book.history().len() as u64;
    let commands = command_count(book);
    let leases = host.leases.as_slice().len() as u64;
    let done = done_count(book.answers());
    let mut object = JsonObject::new(alloc);
    object.put("calls", &calls)?;
    object.put("commands", &commands)?;
    object.put("leases", &leases)?;
    object.put("ok", &done)?;
    Ok(object.into_value())
}

/// How many commands the plan has: a book keeps a place for the answer of each.
fn command_count<K: Kernel + Drop>(book: &Book<K>) -> u64
    ensures { result ≡ length (commands_of book.now.plan) }
{
    book.is_legal();
    legal_worlds_meet_each_clause();
    book.answers().len() as u64
}

#[tactic(auto, using(std::proofs::lemmas::List::Sums::count_by_more_yes, std::proofs::lemmas::List::Sums::count_by_more_no))]
fn done_count(answers: &[Option<Answer>]) -> u64
    ensures { result ≡ count_by is_done answers.now }
{
    let mut count = 0;
    for answer in answers {
        if is_done(answer) {
            count += 1;
        }
    }
    count
}

#[tactic(auto, unfolding(crate::specs::Summary::is_done))]
fn is_done(answer: &Option<Answer>) -> bool
    ensures { result ≡ is_done answer.now }
{
    match answer {
        Some(Answer::Added(_) | Answer::Yes | Answer::Skipped(_) | Answer::Versions(_)) => true,
        Some(Answer::Refused(_) | Answer::OutOfMemory | Answer::Stopped { .. }) => false,
        None => false,
    }
}
