//! The statuses that a program ends with, and the one that its answers come to.

ghost use Rattle.std.specs.Prelude.{◌≡◌};
ghost use Rattle.std.specs.List.{list_any};
ghost use Rattle.pod_text.specs.Statuses.{is_out_of_memory, is_failure, status_of};

use cni_errors::Answer;
use kernel_model::Kernel;
use pod_workers::Book;

/// No command was refused, was stopped or ran out of memory.
pub const SUCCESS_STATUS: u8 = 0;

/// Some command was refused or stopped, and none ran out of memory.
pub const FAILURE_STATUS: u8 = 1;

/// The words aren't taken.
pub const USAGE_STATUS: u8 = 2;

/// A file is missing, too long or refused, or the files make no plan.
pub const REFUSED_STATUS: u8 = 3;

/// A read failed.
pub const READ_STATUS: u8 = 4;

/// A write failed.
pub const WRITE_STATUS: u8 = 5;

/// Memory ran out outside a command.
pub const MEMORY_STATUS: u8 = 6;

/// The system doesn't give the words, and memory isn't why.
pub const NO_WORDS_STATUS: u8 = 7;

/// Some command ran out of memory.
pub const COMMAND_MEMORY_STATUS: u8 = 8;

fn is_out_of_memory(answer: &Option<Answer>) -> bool
    ensures { result ≡ is_out_of_memory answer.now }
{
    matches!(answer, Some(Answer::OutOfMemory))
}

fn is_failure(answer: &Option<Answer>) -> bool
    ensures { result ≡ is_failure answer.now }
{
    matches!(answer, Some(Answer::Refused(_) | Answer::Stopped { .. }))
}

fn any_memory(answers: &[Option<Answer>]) -> bool
    ensures { result ≡ list_any is_out_of_memory answers.now }
{
    answers.iter().any(|answer| is_out_of_memory(answer))
}

fn any_failure(answers: &[Option<Answer>]) -> bool
    ensures { result ≡ list_any is_failure answers.now }
{
    answers.iter().any(|answer| is_failure(answer))
}

fn answers_status(answers: &[Option<Answer>]) -> u8
    ensures { result ≡ status_of answers.now }
{
    if any_memory(answers) {
        COMMAND_MEMORY_STATUS
    } else if any_failure(answers) {
        FAILURE_STATUS
    } else {
        SUCCESS_STATUS
    }
}

/// The status by the answers that the book has so far. A command without one counts as done.
pub fn status<K: Kernel + Drop>(book: &Book<K>) -> u8
    ensures { result ≡ status_of book.now.answers }
{
    answers_status(book.answers())
}
