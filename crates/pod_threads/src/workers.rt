//! The workers, and what each does.

ghost use Rattle.std.specs.Prelude.{◌≡◌, ◌≤◌, [], length, sum, IfSome, vec_capacity};

use crate::gate::Gate;
use crate::owners::Owned;
use crate::shared::{Origin, Shared};
use kernel_model::Kernel;
use pod_workers::StepEnd;
use std::alloc::Global;
use std::sync::ledger::{Ledger, Share};
use std::sync::{Mutex, MutexGuard, Wait};
use std::thread::Parker;
use std::time::Duration;

/// How often a worker naps for the lock before it sleeps until it is woken: some 25 milliseconds in all.
const NAPS: u64 = 50;

/// By how many microseconds each nap is longer than the one before. The first one takes none.
const LONGER: u64 = 20;

/// A worker has one part of the ledger, whose amount is the number of entries that it made.
#[derive(Drop)]
pub(crate) struct Worker<L: Ledger> {
    share: Share<L>,
    count: u64,
    ghost one_part: { share.parts ≡ 1 },
    ghost counted: { share.amount ≡ count },
}

/// Steps the commands that are given to the worker of this number, each to its answer.
pub(crate) fn work<J: Origin, L: Ledger, R: Wait, K: Kernel + Drop, G: Gate>(
    rt: &R,
    shared: &Mutex<Shared<J, L, K>>,
    worker: &mut Worker<L>,
    number: usize,
    owned: &[Owned],
    gate: &G,
) {
    for one in owned {
        if one.worker == number {
            run_command(rt, shared, worker, one.command, gate);
        }
    }
}

/// Steps a command until it is answered. The gate is passed before each step, and not after the last.
fn run_command<J: Origin, L: Ledger, R: Wait, K: Kernel + Drop, G: Gate>(
    rt: &R,
    shared: &Mutex<Shared<J, L, K>>,
    worker: &mut Worker<L>,
    command: u32,
    gate: &G,
) {
    let mut calls: u32 = 0;
    for _ in rt.forever() {
        gate.pass(command, calls);
        match step(rt, shared, worker, command) {
            StepEnd::Over => return,
            StepEnd::Went => calls = calls.saturating_add(1),
        }
    }
    unreachable!()
}

/// One step, under the lock. The lock is left at the end.
fn step<J: Origin, L: Ledger, R: Wait, K: Kernel + Drop>(
    rt: &R,
    shared: &Mutex<Shared<J, L, K>>,
    worker: &mut Worker<L>,
    command: u32,
) -> StepEnd {
    let Worker { share, count } = worker;
    let end = lock(rt, shared).step(command, share);
    if let StepEnd::Went = end {
        *count += 1;
    }
    end
}

/// Takes the lock. A worker that sleeps until it is woken costs whoever leaves the lock a system call, and soon has the
/// lock handed over to it, which takes longer than a step. So a worker that finds the lock taken naps, for longer each
/// time, and the one that has it makes many steps in a row meanwhile.
fn lock<'a, T, R: Wait>(rt: &R, shared: &'a Mutex<T>) -> MutexGuard<'a, T> {
    for naps in 0..NAPS {
        if let Some(guard) = shared.try_lock() {
            return guard;
        }
        Parker::new().park_timeout(rt, Duration::from_micros(naps * LONGER));
    }
    shared.lock(rt)
}

/// So many workers, with one part of the ledger each, and the part that is left.
pub(crate) fn make_workers<L: Ledger>(
    alloc: Global,
    n: u8,
    mut all: Share<L>,
) -> Option<(Vec<Worker<L>>, Share<L>)>
    requires parts { all.parts ≡ n }
    requires amount { all.amount ≡ 0 }
    ensures long { IfSome result (λ r. length r.0.items ≡ n) }
    ensures rest { IfSome result (λ r. (r.1.parts ≡ 0) × (r.1.amount ≡ 0)) }
{
    let mut workers = Vec::new(alloc);
    for _made in 0..n {
        let share = all.split_off(1, 0);
        workers.push(new_worker(share)).ok()?;
    }
    Some((workers, all))
}

fn new_worker<L: Ledger>(share: Share<L>) -> Worker<L>
    requires parts { share.parts ≡ 1 }
    requires amount { share.amount ≡ 0 }
{
    Worker { share, count: 0 }
}

/// Puts the workers' parts together, and their counts into a list that has the room.
pub(crate) fn gather<L: Ledger>(
    workers: Vec<Worker<L>>,
    mut all: Share<L>,
    mut counts: Vec<u64>,
) -> (Share<L>, Vec<u64>)
    requires none { counts.items ≡ [] }
    requires room { length workers.items ≤ vec_capacity counts }
    requires rest { (all.parts ≡ 0) × (all.amount ≡ 0) }
    ensures parts { result.0.parts ≡ length workers.items }
    ensures amount { result.0.amount ≡ sum result.1.items }
    ensures long { length result.1.items ≡ length workers.items }
{
    for worker in workers {
        let Worker { share, count } = worker;
        all.merge(share);
        counts.push_reserved(count);
    }
    (all, counts)
}
