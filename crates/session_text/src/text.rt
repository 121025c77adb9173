//! The text of a session, part by part.

ghost use Rattle.std.specs.Prelude.{◌≡◌, ◌++◌, IfOk, OnOk};
ghost use Rattle.kernel_text.specs.Dump.{dump_of};
ghost use Rattle.session_laws.specs.Views.{finish};
ghost use Rattle.pod_text.specs.Lines.{where_asked};
ghost use Rattle.session_text.specs.SessionText.{entry_line, numbered, task_line, text_of_session};

use crate::answers::answer_as;
use cni_addr::NoMemory;
use kernel_model::Kernel;
use kernel_text::{push_dump, push_line, trace_value};
use plugin_session::Session;
use pod_text::{SessionAsked, answer_value};
use session_file::Task;
use session_laws::Entry;
use std::alloc::Global;

fn push_task<K: Kernel + Drop>(
    alloc: Global,
    session: &Session<K>,
    number: u64,
    task: &Task,
    lines: &mut Vec<u8>,
) -> Result<(), NoMemory>
    ensures { OnOk result (lines.new.items ≡ lines.old.items ++ task_line session.now number task.now) }
{
    match session.answer(number) {
        Some(answer) => {
            let value = answer_value(alloc, number, task.verb, &answer_as(answer)?)?;
            push_line(alloc, &value, lines)
        }
        None => Ok(()),
    }
}

fn push_each_task<K: Kernel + Drop>(
    alloc: Global,
    session: &Session<K>,
    tasks: &[Task],
    lines: &mut Vec<u8>,
) -> Result<(), NoMemory>
    ensures { OnOk result (lines.new.items ≡ lines.old.items ++ numbered (task_line session.now) tasks.now) }
{
    for (place, task) in tasks.iter().enumerate() {
        push_task(alloc, session, place as u64 + 1, task, lines)?;
    }
    Ok(())
}

fn push_tasks<K: Kernel + Drop>(
    alloc: Global,
    session: &Session<K>,
    lines: &mut Vec<u8>,
) -> Result<(), NoMemory>
    ensures { OnOk result
        (lines.new.items ≡ lines.old.items ++ numbered (task_line session.now) session.now.conf.tasks) }
{
    push_each_task(alloc, session, session.conf().tasks.as_slice(), lines)
}

fn push_entry(
    alloc: Global,
    number: u64,
    entry: &Entry,
    lines: &mut Vec<u8>,
) -> Result<(), NoMemory>
    ensures { OnOk result (lines.new.items ≡ lines.old.items ++ entry_line number entry.now) }
{
    let value = trace_value(alloc, number, entry.task, entry.call.get(), &entry.reply)?;
    push_line(alloc, &value, lines)
}

fn push_entries(alloc: Global, history: &[Entry], lines: &mut Vec<u8>) -> Result<(), NoMemory>
    ensures { OnOk result (lines.new.items ≡ lines.old.items ++ numbered entry_line history.now) }
{
    for (place, entry) in history.iter().enumerate() {
        push_entry(alloc, place as u64 + 1, entry, lines)?;
    }
    Ok(())
}

fn push_trace<K: Kernel + Drop>(
    alloc: Global,
    session: &Session<K>,
    asked: bool,
    lines: &mut Vec<u8>,
) -> Result<(), NoMemory>
    ensures { OnOk result
        (lines.new.items ≡ lines.old.items ++ where_asked asked (numbered entry_line session.now.history)) }
{
    if !asked {
        return Ok(());
    }
    push_entries(alloc, session.history(), lines)
}

fn push_host<K: Kernel + Drop>(
    alloc: Global,
    session: &Session<K>,
    asked: bool,
    lines: &mut Vec<u8>,
) -> Result<(), NoMemory>
    ensures { OnOk result
        (lines.new.items ≡ lines.old.items ++ where_asked asked (dump_of (finish session.now))) }
{
    if !asked {
        return Ok(());
    }
    push_dump(alloc, &session.host()?, lines)
}

fn push_parts<K: Kernel + Drop>(
    alloc: Global,
    session: &Session<K>,
    asked: SessionAsked,
    lines: &mut Vec<u8>,
) -> Result<(), NoMemory>
    ensures { OnOk result (lines.new.items ≡ lines.old.items ++ text_of_session session.now asked) }
{
    push_tasks(alloc, session, lines)?;
    push_trace(alloc, session, asked.trace, lines)?;
    push_host(alloc, session, asked.dump, lines)
}

/// The text of the session: a line for each task that has an answer; with `trace` a line for each call of the history;
/// with `dump` a line for each object of the host. Memory that is refused leaves nothing. It takes time and memory in
/// proportion to the text and, where `dump` is asked for, one copy of the host besides.
pub fn session_text<K: Kernel + Drop>(
    alloc: Global,
    session: &Session<K>,
    asked: SessionAsked,
) -> Result<Vec<u8>, NoMemory>
    ensures { IfOk result (λ bytes. bytes.items ≡ text_of_session session.now asked) }
{
    let mut lines = Vec::new(alloc);
    push_parts(alloc, session, asked, &mut lines)?;
    Ok(lines)
}
