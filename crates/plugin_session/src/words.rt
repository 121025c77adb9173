//! A task's words as those of a command.

ghost use Rattle.std.specs.Prelude.{IfOk, ◌≡◌};
ghost use Rattle.session_laws.specs.Tasks as tasks;

use cni_addr::{Duplicate, Items, NoMemory, Text};
use pod_file::Command;
use session_file::Task;
use std::alloc::Global;

/// The task as a command of the network, whose words are tested as a pod file's are. Its stop and its faults are the
/// journal's.
pub(crate) fn command_of(
    alloc: Global,
    network: &Text,
    number: u32,
    task: &Task,
) -> Result<Command, NoMemory>
    ensures { IfOk result (λ command. command ≡ tasks.command_of network.now number task.now) }
{
    Ok(Command {
        number,
        verb: task.verb,
        network: network.copy()?,
        container: task.container.copy()?,
        netns: task.netns.copy()?,
        ifname: task.ifname.copy()?,
        args: Text::of(alloc, "")?,
        mappings: Items::new(alloc),
        valid: Items::new(alloc),
        table: None,
        stop: None,
        faults: Items::new(alloc),
    })
}
