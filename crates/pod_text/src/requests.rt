//! The requests that commands made of plugins, as lines.

ghost use Rattle.std.specs.Prelude.{◌≡◌, ◌++◌, OnOk};
ghost use Rattle.std.specs.List.{flat_map};
ghost use Rattle.std.specs.Option.{option_copied};
ghost use Rattle.pod_text.specs.Requests.{IsToldIn, all_requests, raw_named, requests_of};

use crate::printable::push_lines;
use crate::request_lines::lines_of_answer;
use crate::told::{Told, told_in};
use cni_addr::{Items, NoMemory, Text};
use kernel_model::Kernel;
use plugin_requests::RawList;
use pod_file::Command;
use pod_workers::Book;
use std::alloc::Global;

/// The list of the name. A plan has few lists.
fn raw_named<'a>(raws: &'a [RawList], name: &Text) -> Option<&'a RawList>
    ensures { option_copied result ≡ raw_named raws.now name.now }
{
    raws.iter().find(|raw| raw.list().get().name == *name)
}

fn push_command<K: Kernel + Drop>(
    alloc: Global,
    book: &Book<K>,
    raws: &[RawList],
    told: &Told,
    command: &Command,
    lines: &mut Vec<u8>,
) -> Result<(), NoMemory>
    requires { IsToldIn book.now.history told.now }
    ensures { OnOk result (lines.new.items ≡ lines.old.items ++ requests_of raws.now book.now command.now) }
{
    let Some(answer) = book.answer(command.number) else {
        return Ok(());
    };
    let Some(raw) = raw_named(raws, &command.network) else {
        return Ok(());
    };
    let cached = told.get(&command.number).map(|cached| cached.get());
    let values = lines_of_answer(alloc, answer, raw, command, cached)?;
    push_lines(alloc, values.as_slice(), lines)
}

fn push_round<K: Kernel + Drop>(
    alloc: Global,
    book: &Book<K>,
    raws: &[RawList],
    told: &Told,
    commands: &[Command],
    lines: &mut Vec<u8>,
) -> Result<(), NoMemory>
    requires { IsToldIn book.now.history told.now }
    ensures { OnOk result
        (lines.new.items ≡ lines.old.items ++ flat_map (requests_of raws.now book.now) commands.now) }
{
    for command in commands {
        push_command(alloc, book, raws, told, command, lines)?;
    }
    Ok(())
}

fn push_rounds<K: Kernel + Drop>(
    alloc: Global,
    book: &Book<K>,
    raws: &[RawList],
    told: &Told,
    rounds: &[Items<Command>],
    lines: &mut Vec<u8>,
) -> Result<(), NoMemory>
    requires { IsToldIn book.now.history told.now }
    ensures { OnOk result
        (lines.new.items ≡ lines.old.items ++ flat_map (flat_map (requests_of raws.now book.now)) rounds.now) }
{
    for commands in rounds {
        push_round(alloc, book, raws, told, commands.as_slice(), lines)?;
    }
    Ok(())
}

/// Appends the lines of all commands, by the plan's lists as they were read. It takes one pass over the history, and no
/// command looks through it again.
pub(crate) fn push_requests<K: Kernel + Drop>(
    alloc: Global,
    book: &Book<K>,
    raws: &[RawList],
    lines: &mut Vec<u8>,
) -> Result<(), NoMemory>
    ensures { OnOk result (lines.new.items ≡ lines.old.items ++ all_requests raws.now book.now) }
{
    let told = told_in(alloc, book.history())?;
    push_rounds(
        alloc,
        book,
        raws,
        &told,
        book.plan().pods.rounds.as_slice(),
        lines,
    )
}
