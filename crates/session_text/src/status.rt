//! The status that the answers of a session come to.

ghost use Rattle.std.specs.Prelude.{◌≡◌, Some};
ghost use Rattle.std.specs.List.{list_any};
ghost use Rattle.pod_text.specs.Statuses as statuses;
ghost use Rattle.session_text.specs.SessionText.{answer_as, status_of_session};

use kernel_model::Kernel;
use plugin_session::Session;
use pod_text::{COMMAND_MEMORY_STATUS, FAILURE_STATUS, SUCCESS_STATUS};
use session_laws::TaskAnswer;

fn is_out_of_memory(answer: &TaskAnswer) -> bool
    ensures { result ≡ statuses.is_out_of_memory (Some (answer_as answer.now)) }
{
    matches!(answer, TaskAnswer::OutOfMemory)
}

fn is_failure(answer: &TaskAnswer) -> bool
    ensures { result ≡ statuses.is_failure (Some (answer_as answer.now)) }
{
    matches!(answer, TaskAnswer::Refused(_) | TaskAnswer::Stopped { .. })
}

fn any_memory(answers: &[TaskAnswer]) -> bool
    ensures { result ≡ list_any (λ a. statuses.is_out_of_memory (Some (answer_as a))) answers.now }
{
    answers.iter().any(|answer| is_out_of_memory(answer))
}

fn any_failure(answers: &[TaskAnswer]) -> bool
    ensures { result ≡ list_any (λ a. statuses.is_failure (Some (answer_as a))) answers.now }
{
    answers.iter().any(|answer| is_failure(answer))
}

/// The status by the answers that the session has so far.
#[tactic(auto, using(crate::proofs::Mapped::any_mapped))]
pub fn session_status<K: Kernel + Drop>(session: &Session<K>) -> u8
    ensures { result ≡ status_of_session session.now }
{
    let answers = session.answers();
    if any_memory(answers) {
        COMMAND_MEMORY_STATUS
    } else if any_failure(answers) {
        FAILURE_STATUS
    } else {
        SUCCESS_STATUS
    }
}
