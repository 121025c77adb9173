//! A CHECK: the questions of a row, and how they are asked.

ghost use Rattle.std.specs.Prelude.{◌≡◌, ◌+◌, ◌<◌, ◌^◌, ◌∷◌, ◌++◌, [], map, IfOk, List, OnOk, Some};
ghost use Rattle.std.specs.Option.{option_copied};
ghost use Rattle.kernel_types.specs.Sound.{IsSound};
ghost use Rattle.kernel_types.specs.Terms.{lease_of};
ghost use Rattle.pod_file.specs.declared.command.Command.{Command};
ghost use Rattle.cni_errors.specs.CommandFields.{att_of};
ghost use Rattle.cni_errors.specs.ObjectQuestions.{lease_question};
ghost use Rattle.cni_errors.specs.declared.answer.Question.{Question};
ghost use Rattle.cni_verbs.specs.Script as script;
ghost use Rattle.session_verbs.specs.Asking.{AreProbes, AskedAs, IsProbe};
ghost use Rattle.session_verbs.specs.Asking as asking;
ghost use Rattle.session_laws.specs.Course.{Course};
ghost use Rattle.session_verbs.specs.Journal.{EndsAs};
ghost use Rattle.session_laws.specs.Pools.{IsReady, Pools};
ghost use Rattle.session_laws.specs.Tasks as asked;

use crate::journal::Journal;
use crate::part::PartEnd;
use cni_addr::{Addr, Duplicate, Items, NoMemory, RefCounted};
use cni_errors::object_questions::{Checked, rule_question};
use cni_errors::{Cause, Ending, Question};
use kernel_model::Kernel;
use kernel_types::{Att, Call, Lease, Reply, Rule};
use session_laws::Row;
use std::alloc::Global;

// ---- the questions of a row

fn ask_for<T: Checked>(questions: &mut Vec<Question>, object: T) -> Result<(), NoMemory>
    ensures { OnOk result (questions.new.items ≡ questions.old.items ++ T.question object ∷ []) }
{
    let question = object.ask(*questions.allocator())?;
    questions.push(question)?;
    Ok(())
}

fn ask_for_rule(
    questions: &mut Vec<Question>,
    number: u64,
    rule: &RefCounted<Rule>,
) -> Result<(), NoMemory>
    ensures { OnOk result
        (questions.new.items ≡ questions.old.items ++ asked.questions_by number (Call.RuleAppend rule.now)) }
{
    let question = rule_question(*questions.allocator(), rule, number)?;
    questions.push(question)?;
    Ok(())
}

/// Asks for each object that a call appends. A rule has no name, and is missed by this number.
fn ask_for_objects(questions: &mut Vec<Question>, number: u64, call: &Call) -> Result<(), NoMemory>
    ensures { OnOk result (questions.new.items ≡ questions.old.items ++ asked.questions_by number call.now) }
{
    match call {
        Call::VethAdd {
            host_end,
            inner_end,
        } => {
            ask_for(questions, host_end.get().copy()?)?;
            ask_for(questions, inner_end.get().copy()?)
        }
        Call::MacvlanAdd { link } => ask_for(questions, link.get().copy()?),
        Call::AddrAdd { obj } => ask_for(questions, obj.copy()?),
        Call::RouteAdd { obj } => ask_for(questions, obj.copy()?),
        Call::RuleAppend { rule } => ask_for_rule(questions, number, rule),
        Call::SettingSet { setting } => ask_for(questions, setting.copy()?),
        _ => Ok(()),
    }
}

/// The number of the next rule, from the number before this call.
fn next_rule(number: u64, call: &Call) -> u64
    requires { number + 1 < 2 ^ 64 }
    ensures { result ≡ asked.next_rule number call.now }
{
    match call {
        Call::RuleAppend { .. } => number + 1,
        _ => number,
    }
}

fn ask_for_calls(questions: &mut Vec<Question>, calls: &[Call]) -> Result<(), NoMemory>
    ensures { OnOk result (questions.new.items ≡ questions.old.items ++ asked.call_questions 1 calls.now) }
{
    let mut number = 1;
    for call in calls {
        ask_for_objects(questions, number, call)?;
        number = next_rule(number, call);
    }
    Ok(())
}

fn ask_for_leases(questions: &mut Vec<Question>, att: &Att, leased: &[Addr]) -> Result<(), NoMemory>
    ensures { OnOk result (questions.new.items
        ≡ questions.old.items ++ map (λ addr. lease_question (lease_of att.now addr)) leased.now) }
{
    let alloc = *questions.allocator();
    for addr in leased {
        let lease = Lease::of(att, *addr)?;
        ask_for(questions, RefCounted::of(alloc, lease)?)?;
    }
    Ok(())
}

/// What a CHECK asks, in order: each object that the row's calls append, and then the leases. It takes memory in
/// proportion to both.
fn row_questions(alloc: Global, row: &Row, leased: &[Addr]) -> Result<Items<Question>, NoMemory>
    ensures { IfOk result (λ questions. questions ≡ asked.row_questions (Some row.now) leased.now) }
{
    let mut questions = Vec::new(alloc);
    ask_for_calls(&mut questions, row.calls.as_slice())?;
    ask_for_leases(&mut questions, &row.att, leased)?;
    Ok(Items::of_vec(questions))
}

/// The questions of an attachment without a row, which are none, or with one.
fn questions_of(
    alloc: Global,
    row: Option<&Row>,
    leased: &[Addr],
) -> Result<Items<Question>, NoMemory>
    ensures { IfOk result (λ questions. questions ≡ asked.row_questions (option_copied row.entry) leased.now) }
{
    match row {
        None => Ok(Items::new(alloc)),
        Some(row) => row_questions(alloc, row, leased),
    }
}

// ---- how they are asked

/// How a check ends by this reply to a question, if it does.
fn end_by(reply: Option<&Reply>, lack: Cause, number: u64) -> Option<PartEnd>
    ensures { result ≡ asking.end_by (option_copied reply.entry) lack number }
{
    match reply {
        Some(Reply::Has(true)) => {
            drop(lack);
            None
        }
        Some(Reply::Has(false)) => Some(PartEnd::Over(Ending::Refused(lack))),
        _ => {
            drop(lack);
            Some(PartEnd::Over(Ending::Refused(Cause::Fault(number))))
        }
    }
}

// What is left of a question is let go by `drop`, which keeps the code that takes it apart in one place.
/// Asks one question, and ends the check where the answer isn't yes.
fn ask<K: Kernel + Drop>(
    journal: &mut Journal<K>,
    question: Question,
) -> Result<Option<PartEnd>, NoMemory>
    requires sound { IsSound journal.old.host }
    requires probe { IsProbe question.call }
    ensures ends { (co : Course) (c : Command) (left : List Question)
        → AskedAs co c journal.old journal.new question left result }
    ensures same { journal.new.host ≡ journal.old.host }
{
    if !journal.may_go() {
        drop(question);
        return Ok(Some(PartEnd::Stopped));
    }
    let Question { call, lack } = question;
    match journal.make(call) {
        Err(NoMemory) => {
            drop(lack);
            Err(NoMemory)
        }
        Ok(()) => Ok(end_by(journal.reply(), lack, journal.made())),
    }
}

/// Asks one question after another, until the answer to one isn't yes.
fn ask_questions<K: Kernel + Drop>(
    journal: &mut Journal<K>,
    questions: Items<Question>,
) -> Result<PartEnd, NoMemory>
    requires sound { IsSound journal.old.host }
    requires probes { AreProbes questions }
    ensures ends { (co : Course) (c : Command)
        → EndsAs co c journal.old journal.new (script.asking questions) result }
    ensures same { journal.new.host ≡ journal.old.host }
{
    for question in questions.into_vec() {
        if let Some(end) = ask(journal, question)? {
            return Ok(end);
        }
    }
    Ok(PartEnd::Over(Ending::Yes))
}

/// How a check ends by the reply about its cached result, if it does.
fn end_by_entry(reply: Option<&Reply>, number: u64) -> Option<PartEnd>
    ensures { result ≡ asking.end_by_entry (option_copied reply.entry) number }
{
    match reply {
        Some(Reply::Entry(Some(_))) => None,
        Some(Reply::Entry(None)) => Some(PartEnd::Over(Ending::Refused(Cause::Unknown))),
        _ => Some(PartEnd::Over(Ending::Refused(Cause::Fault(number)))),
    }
}

/// Looks for the cached result of the attachment, and for each object that its row says. Only where the cached result
/// is there are the questions made.
pub fn check<K: Kernel + Drop>(
    journal: &mut Journal<K>,
    att: &Att,
    row: Option<&Row>,
    leased: &[Addr],
) -> Result<PartEnd, NoMemory>
    requires { IsSound journal.old.host }
    ensures ends { (co : Course) (c : Command) → att_of c ≡ att.now
        → co.questions ≡ asked.row_questions (option_copied row.entry) leased.now
        → EndsAs co c journal.old journal.new script.FindingEntry result }
    ensures ready { (pools : Pools) → IsReady pools journal.old.host → IsReady pools journal.new.host }
{
    if !journal.may_go() {
        return Ok(PartEnd::Stopped);
    }
    let call = Call::CacheGet { att: att.copy()? };
    journal.make(RefCounted::of(journal.alloc(), call)?)?;
    match end_by_entry(journal.reply(), journal.made()) {
        Some(end) => Ok(end),
        None => {
            let questions = questions_of(journal.alloc(), row, leased)?;
            ask_questions(journal, questions)
        }
    }
}
