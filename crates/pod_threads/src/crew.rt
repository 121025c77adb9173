//! The workers of a round with all that they take, so that no memory is needed once they are started.

ghost use Rattle.std.specs.Prelude.{◌≡◌, ◌<◌, ◌≤◌, [], length, sum, IfSome, vec_capacity};

use crate::gate::Gate;
use crate::owners::{Owned, share_out};
use crate::shared::{Origin, Shared};
use crate::workers::{Worker, gather, make_workers, work};
use kernel_model::Kernel;
use pod_workers::Book;
use std::alloc::Global;
use std::sync::ledger::{Ledger, Share};
use std::sync::{Mutex, Wait};
use std::thread;
use std::thread::Threads;

/// The workers, which of them steps which command, the part of the ledger that none of them has, and room for their
/// counts.
#[derive(Drop)]
pub(crate) struct Crew<L: Ledger> {
    owned: Vec<Owned>,
    workers: Vec<Worker<L>>,
    rest: Share<L>,
    counts: Vec<u64>,
    ghost some: { 0 < length workers.items },
    ghost nothing_left: { (rest.parts ≡ 0) × (rest.amount ≡ 0) },
    ghost no_counts: { counts.items ≡ [] },
    ghost room: { length workers.items ≤ vec_capacity counts },
}

impl<L: Ledger> Crew<L> {
    /// So many workers for the current round. All of the ledger is theirs.
    pub(crate) fn new<K: Kernel + Drop>(
        alloc: Global,
        book: &Book<K>,
        n: u8,
        all: Share<L>,
    ) -> Option<Crew<L>>
        requires some { 0 < n }
        requires left { book.now.round < length book.now.plan.pods.rounds }
        requires parts { all.parts ≡ n }
        requires amount { all.amount ≡ 0 }
        ensures { IfSome result (λ crew. length crew.workers.items ≡ n) }
    {
        let owned = share_out(alloc, book, n)?;
        let (workers, rest) = make_workers(alloc, n, all)?;
        let counts = Vec::with_capacity(alloc, n as usize).ok()?;
        Some(Crew {
            owned,
            workers,
            rest,
            counts,
        })
    }
}

impl<L: Ledger + Send + Sync> Crew<L> {
    /// Lets each worker step its commands, in a thread of its own where there is one to be had. The ledger is whole
    /// again at the end, and its amount is what the counts sum up to.
    pub(crate) fn work<
        J: Origin + Send + Sync,
        R: Threads + Wait + Sync,
        K: Kernel + Send + Drop,
        G: Gate,
    >(self, rt: &R, shared: &Mutex<Shared<J, L, K>>, gate: &G) -> (Share<L>, Vec<u64>)
        ensures parts { result.0.parts ≡ length self.workers.items }
        ensures amount { result.0.amount ≡ sum result.1.items }
        ensures long { length result.1.items ≡ length self.workers.items }
    {
        let Crew {
            owned,
            mut workers,
            rest,
            counts,
        } = self;
        let n = workers.len();
        thread::for_each_mut(
            rt,
            workers.as_mut_slice(),
            n,
            &|i, worker| { work(rt, shared, worker, i, owned.as_slice(), gate) },
        );
        gather(workers, rest, counts)
    }
}
