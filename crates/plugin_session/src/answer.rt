//! How answers are made.

ghost use Rattle.std.specs.Prelude.{◌≡◌, IfOk};
ghost use Rattle.session_laws.specs.Holds as holds;
ghost use Rattle.plugin_session.specs.Runs as runs;

use cni_addr::NoMemory;
use cni_errors::{Answer, Cause, Ending, ErrorKind, plain_answer, plain_error};
use cni_result::{CniError, Version};
use pod_file::Command;
use session_laws::TaskAnswer;
use std::alloc::Global;

/// The error of what is wrong of a task's configuration, by its key.
pub(crate) fn wrong_error(alloc: Global, key: &str) -> Result<CniError, NoMemory>
    ensures { IfOk result (λ error. error ≡ holds.wrong_error key.now) }
{
    let message = ErrorKind::InvalidList.message_about(alloc, key)?;
    plain_error(alloc, ErrorKind::InvalidList, message)
}

/// What a verb is answered that ended so; an ADD's result is no part of it.
pub(crate) fn answer_to(
    alloc: Global,
    command: &Command,
    ending: &Ending,
) -> Result<TaskAnswer, NoMemory>
    ensures { IfOk result (λ answer. answer ≡ runs.answer_to command.now ending.now) }
{
    if let Ending::Refused(Cause::NoMaster) = ending {
        return Ok(TaskAnswer::Refused(wrong_error(alloc, "link")?));
    }
    match plain_answer(alloc, Version::V1_1, command, ending)? {
        Answer::Refused(error) => Ok(TaskAnswer::Refused(error)),
        _ => Ok(TaskAnswer::Yes),
    }
}
