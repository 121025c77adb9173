//! How a round is made: by the calling thread alone, or by several threads.

ghost use Rattle.std.specs.Prelude.{◌≡◌, ◌<◌, ◌≤◌, length};
ghost use Rattle.pod_workers.specs.Extends.{Rounds};
ghost use Rattle.pod_workers.specs.Order.{IsInFileOrder};

use kernel_model::Kernel;
use pod_file::Command;
use pod_threads::{Gate, Rounded, round_threads};
use pod_workers::Book;
use std::alloc::Global;
use std::collections::BTreeSet;
use std::sync::Wait;
use std::thread::Threads;

/// The book with its current round made by so many threads at most. Where one is enough, or memory is refused for
/// several, the calling thread makes the round, and passes no gate.
pub(crate) fn make_round<K: Kernel + Send + Drop, R: Threads + Wait + Sync, G: Gate>(
    rt: &R,
    alloc: Global,
    book: Book<K>,
    threads: u8,
    gate: &G,
) -> Book<K>
    requires some { 1 ≤ threads }
    requires left { book.round < length book.plan.pods.rounds }
    ensures rounds { Rounds book result }
    ensures order { threads ≡ 1 → IsInFileOrder book → IsInFileOrder result }
{
    let workers = worker_count(alloc, book.current_round(), threads);
    if workers == 1 {
        return make_round_alone(book);
    }
    match round_threads(rt, alloc, book, workers, gate) {
        Ok(Rounded { book, counts: _ }) => book,
        Err(book) => make_round_alone(book),
    }
}

/// One thread for each container of the round, whose commands all go to one, but no more than so many. No container is
/// looked at once there are so many; where memory is refused, it is so many.
fn worker_count(alloc: Global, commands: &[Command], threads: u8) -> u8
    requires { 1 ≤ threads }
    ensures some { 1 ≤ result }
    ensures most { result ≤ threads }
{
    let mut containers: BTreeSet<&str> = BTreeSet::new(alloc);
    for command in commands {
        if containers.len() >= threads as usize {
            return threads;
        }
        if containers.insert(command.container.as_str()).is_err() {
            return threads;
        }
    }
    (containers.len().min(threads as usize) as u8).max(1)
}

/// The book with its current round made by the calling thread.
pub(crate) fn make_round_alone<K: Kernel + Drop>(mut book: Book<K>) -> Book<K>
    requires left { book.round < length book.plan.pods.rounds }
    ensures rounds { Rounds book result }
    ensures order { IsInFileOrder book → IsInFileOrder result }
{
    book.round_alone();
    book
}
