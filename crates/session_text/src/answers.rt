//! Answers of tasks as those of commands.

ghost use Rattle.std.specs.Prelude.{◌≡◌, IfOk};
ghost use Rattle.session_text.specs.SessionText.{answer_as};

use cni_addr::{Duplicate, NoMemory};
use cni_errors::Answer;
use session_laws::TaskAnswer;

/// The task's answer as a command's. They share a result; an error is copied.
pub(crate) fn answer_as(answer: &TaskAnswer) -> Result<Answer, NoMemory>
    ensures { IfOk result (λ made. made ≡ answer_as answer.now) }
{
    match answer {
        TaskAnswer::Added(result) => Ok(Answer::Added(result.copy()?)),
        TaskAnswer::Yes => Ok(Answer::Yes),
        TaskAnswer::Refused(error) => Ok(Answer::Refused(error.copy()?)),
        TaskAnswer::OutOfMemory => Ok(Answer::OutOfMemory),
        TaskAnswer::Stopped { calls } => Ok(Answer::Stopped { calls: *calls }),
    }
}
