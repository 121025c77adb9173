//! The text of a book, part by part.

ghost use Rattle.std.specs.Prelude.{◌≡◌, ◌++◌, false, OnOk, IfOk};
ghost use Rattle.std.specs.List.{flat_map};
ghost use Rattle.kernel_text.specs.Dump.{dump_of};
ghost use Rattle.pod_workers.specs.World.{host_of};
ghost use Rattle.pod_text.specs.Lines.{command_line, command_lines, command_part, entry_line, trace_from, trace_lines};
ghost use Rattle.pod_text.specs.Lines.{where_asked, requests_asked, is_summary, shows_host, text_of};

use crate::answers::answer_value;
use crate::asked::{Asked, CommandPart};
use crate::fates::push_fates;
use crate::requests::push_requests;
use crate::summary::push_summary;
use cni_addr::{Items, NoMemory};
use kernel_model::{Host, Kernel};
use kernel_text::{push_dump, push_line, trace_value};
use pod_file::Command;
use pod_workers::{Book, Entry};
use std::alloc::Global;

fn push_command<K: Kernel + Drop>(
    alloc: Global,
    book: &Book<K>,
    command: &Command,
    lines: &mut Vec<u8>,
) -> Result<(), NoMemory>
    ensures { OnOk result (lines.new.items ≡ lines.old.items ++ command_line book.now command.now) }
{
    match book.answer(command.number) {
        Some(answer) => {
            let value = answer_value(alloc, command.number as u64, command.verb, answer)?;
            push_line(alloc, &value, lines)
        }
        None => Ok(()),
    }
}

fn push_round<K: Kernel + Drop>(
    alloc: Global,
    book: &Book<K>,
    commands: &[Command],
    lines: &mut Vec<u8>,
) -> Result<(), NoMemory>
    ensures { OnOk result (lines.new.items ≡ lines.old.items ++ flat_map (command_line book.now) commands.now) }
{
    for command in commands {
        push_command(alloc, book, command, lines)?;
    }
    Ok(())
}

fn push_rounds<K: Kernel + Drop>(
    alloc: Global,
    book: &Book<K>,
    rounds: &[Items<Command>],
    lines: &mut Vec<u8>,
) -> Result<(), NoMemory>
    ensures { OnOk result
        (lines.new.items ≡ lines.old.items ++ flat_map (flat_map (command_line book.now)) rounds.now) }
{
    for commands in rounds {
        push_round(alloc, book, commands.as_slice(), lines)?;
    }
    Ok(())
}

fn push_commands<K: Kernel + Drop>(
    alloc: Global,
    book: &Book<K>,
    lines: &mut Vec<u8>,
) -> Result<(), NoMemory>
    ensures { OnOk result (lines.new.items ≡ lines.old.items ++ command_lines book.now) }
{
    push_rounds(alloc, book, book.plan().pods.rounds.as_slice(), lines)
}

fn push_command_part<K: Kernel + Drop>(
    alloc: Global,
    book: &Book<K>,
    host: &Host,
    part: CommandPart,
    lines: &mut Vec<u8>,
) -> Result<(), NoMemory>
    requires { host.now ≡ host_of book.now }
    ensures { OnOk result (lines.new.items ≡ lines.old.items ++ command_part part book.now) }
{
    match part {
        CommandPart::Lines => push_commands(alloc, book, lines),
        CommandPart::Summary => push_summary(alloc, book, host, lines),
    }
}

fn push_entry(
    alloc: Global,
    number: u64,
    entry: &Entry,
    lines: &mut Vec<u8>,
) -> Result<(), NoMemory>
    ensures { OnOk result (lines.new.items ≡ lines.old.items ++ entry_line number entry.now) }
{
    let value = trace_value(alloc, number, entry.command, entry.call.get(), &entry.reply)?;
    push_line(alloc, &value, lines)
}

fn push_entries(alloc: Global, history: &[Entry], lines: &mut Vec<u8>) -> Result<(), NoMemory>
    ensures { OnOk result (lines.new.items ≡ lines.old.items ++ trace_from 1 history.now) }
{
    for (place, entry) in history.iter().enumerate() {
        push_entry(alloc, place as u64 + 1, entry, lines)?;
    }
    Ok(())
}

fn push_trace<K: Kernel + Drop>(
    alloc: Global,
    book: &Book<K>,
    asked: bool,
    lines: &mut Vec<u8>,
) -> Result<(), NoMemory>
    ensures { OnOk result (lines.new.items ≡ lines.old.items ++ where_asked asked (trace_lines book.now)) }
{
    if !asked {
        return Ok(());
    }
    push_entries(alloc, book.history(), lines)
}

fn push_requests_asked<K: Kernel + Drop>(
    alloc: Global,
    book: &Book<K>,
    asked: &Asked,
    lines: &mut Vec<u8>,
) -> Result<(), NoMemory>
    ensures { OnOk result
        (lines.new.items ≡ lines.old.items ++ requests_asked asked.now.requests book.now) }
{
    match &asked.requests {
        Some(raws) => push_requests(alloc, book, raws.as_slice(), lines),
        None => Ok(()),
    }
}

fn push_host(alloc: Global, host: &Host, asked: bool, lines: &mut Vec<u8>) -> Result<(), NoMemory>
    ensures { OnOk result (lines.new.items ≡ lines.old.items ++ where_asked asked (dump_of host.now)) }
{
    if !asked {
        return Ok(());
    }
    push_dump(alloc, host, lines)
}

/// Whether some part tells of the host.
fn shows_host(asked: &Asked) -> bool
    ensures { result ≡ shows_host asked.now }
{
    asked.dump || is_summary(asked.commands) || !asked.packets.as_slice().is_empty()
}

fn is_summary(part: CommandPart) -> bool
    ensures { result ≡ is_summary part }
{
    match part {
        CommandPart::Lines => false,
        CommandPart::Summary => true,
    }
}

/// Appends each part, by the book's host.
#[tactic(auto, unfolding(crate::specs::Lines::text_of))]
fn push_parts<K: Kernel + Drop>(
    alloc: Global,
    book: &Book<K>,
    host: &Host,
    asked: &Asked,
    lines: &mut Vec<u8>,
) -> Result<(), NoMemory>
    requires { host.now ≡ host_of book.now }
    ensures { OnOk result (lines.new.items ≡ lines.old.items ++ text_of book.now asked.now) }
{
    push_command_part(alloc, book, host, asked.commands, lines)?;
    push_requests_asked(alloc, book, asked, lines)?;
    push_trace(alloc, book, asked.trace, lines)?;
    push_host(alloc, host, asked.dump, lines)?;
    push_fates(alloc, host, asked.packets.as_slice(), lines)?;
    Ok(())
}

/// Appends each part, where none tells of the host.
fn push_without_host<K: Kernel + Drop>(
    alloc: Global,
    book: &Book<K>,
    asked: &Asked,
    lines: &mut Vec<u8>,
) -> Result<(), NoMemory>
    requires { shows_host asked.now ≡ false }
    ensures { OnOk result (lines.new.items ≡ lines.old.items ++ text_of book.now asked.now) }
{
    push_commands(alloc, book, lines)?;
    push_requests_asked(alloc, book, asked, lines)?;
    push_trace(alloc, book, asked.trace, lines)?;
    Ok(())
}

/// Appends each part, by one copy of the book's host where some part tells of it.
fn push_text<K: Kernel + Drop>(
    alloc: Global,
    book: &Book<K>,
    asked: &Asked,
    lines: &mut Vec<u8>,
) -> Result<(), NoMemory>
    ensures { OnOk result (lines.new.items ≡ lines.old.items ++ text_of book.now asked.now) }
{
    if !shows_host(asked) {
        return push_without_host(alloc, book, asked, lines);
    }
    let host = book.host()?;
    push_parts(alloc, book, &host, asked, lines)
}

/// The text of the book: of the commands what is asked for; with `requests` a line for each request that a command
/// which was done made of a plugin; with `trace` a line for each call of the history; with `dump` a line for each
/// object of the host; and a line for each packet. Memory that is refused leaves nothing. It takes time and memory in
/// proportion to the text, the plan and, where requests are asked for, the history, and one copy of the host besides
/// where the summary, `dump` or packets are asked for.
pub fn text<K: Kernel + Drop>(
    alloc: Global,
    book: &Book<K>,
    asked: &Asked,
) -> Result<Vec<u8>, NoMemory>
    ensures { IfOk result (λ bytes. bytes.items ≡ text_of book.now asked.now) }
{
    let mut lines = Vec::new(alloc);
    push_text(alloc, book, asked, &mut lines)?;
    Ok(lines)
}
