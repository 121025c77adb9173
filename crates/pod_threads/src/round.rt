//! A round by several workers.

ghost use Rattle.std.specs.Prelude.{◌≡◌, ◌+◌, ◌<◌, ◌≤◌, ◌^◌, length, sum, slice_index, IfOk, IfErr};
ghost use Rattle.pod_workers.specs.Extends.{Rounds};
ghost use Rattle.pod_threads.specs.Counted.{entries_of_round};

use crate::counts::{add_first, entries_of_current};
use crate::crew::Crew;
use crate::gate::Gate;
use crate::shared::{Origin, Shared};
use cni_addr::Items;
use kernel_model::Kernel;
use pod_workers::Book;
use std::alloc::Global;
use std::marker::Brand;
use std::sync::ledger::{Blank, Ledger};
use std::sync::{Mutex, Wait};
use std::thread::Threads;

/// The book after a round, and for each worker how many entries it made. The first worker's count has besides the
/// round's entries that no worker made: those that stood before (clause `first` of [`round_threads`]), and those of
/// commands that were left to be done at the end (the sum has them; that they are the first's no clause says, since the
/// book between is not shown).
#[derive(Drop)]
pub struct Rounded<K: Kernel> {
    pub book: Book<K>,
    pub counts: Items<u64>,
}

/// Does the current round by so many workers, each in a thread of its own where there is one to be had.
///
/// A worker steps the commands of its containers in file order, each to its answer, and passes the gate before each
/// step. What is left open when all workers are done is stepped here in file order. A gate that holds a worker for ever
/// holds this call for ever.
///
/// The only error is out of memory, before any worker is started. No clause says that memory ran out then, so a
/// body that always hands the book back would meet them all; that the round is done where memory is ample is tested.
pub fn round_threads<R: Threads + Wait + Sync, K: Kernel + Send + Drop, G: Gate>(
    rt: &R,
    alloc: Global,
    book: Book<K>,
    n: u8,
    gate: &G,
) -> Result<Rounded<K>, Book<K>>
    requires some { 1 ≤ n }
    requires left { book.round < length book.plan.pods.rounds }
    ensures rounds { IfOk result (λ r. Rounds book r.book) }
    ensures many { IfOk result (λ r. length r.counts ≡ n) }
    ensures counts { IfOk result (λ r. sum r.counts ≡ entries_of_round book.plan book.round r.book.history) }
    ensures first { IfOk result (λ r. entries_of_round book.plan book.round book.history ≤ slice_index r.counts 0) }
    ensures err { IfErr result (λ b. b ≡ book) }
{
    round_as::<Brand, Brand, R, K, G>(rt, alloc, book, n, gate, Blank::new(n as u64))
}

/// The same, with the world of the book that went in and the ledger named.
fn round_as<
    J: Origin + Send + Sync,
    L: Ledger + Send + Sync,
    R: Threads + Wait + Sync,
    K: Kernel + Send + Drop,
    G: Gate,
>(
    rt: &R,
    alloc: Global,
    book: Book<K>,
    n: u8,
    gate: &G,
    blank: Blank,
) -> Result<Rounded<K>, Book<K>>
    requires from { book ≡ J.from }
    requires name { blank.name ≡ L.name }
    requires parts { (blank.parts ≡ L.parts) × (blank.parts ≡ n) }
    requires some { 1 ≤ n }
    requires left { book.round < length book.plan.pods.rounds }
    ensures rounds { IfOk result (λ r. Rounds book r.book) }
    ensures many { IfOk result (λ r. length r.counts ≡ n) }
    ensures counts { IfOk result (λ r. sum r.counts ≡ entries_of_round book.plan book.round r.book.history) }
    ensures first { IfOk result (λ r. entries_of_round book.plan book.round book.history ≤ slice_index r.counts 0) }
    ensures err { IfErr result (λ b. b ≡ book) }
{
    let (made, all) = blank.open::<L>();
    let Some(crew) = Crew::new(alloc, &book, n, all) else {
        return Err(book);
    };
    let before = entries_of_current(&book);
    let shared = Mutex::new(Shared::<J, L, K>::new(book, made));
    let (mut all, mut counts) = crew.work(rt, &shared, gate);
    let mut book = shared.into_inner().into_book(&mut all);
    let rest = end_round(&mut book);
    add_first(&mut counts, (before + rest) as u64);
    let counts = Items::of_vec(counts);
    Ok(Rounded { book, counts })
}

/// Steps what is left of the current round, makes the next one current, and tells how many entries that made.
fn end_round<K: Kernel + Drop>(book: &mut Book<K>) -> usize
    requires { book.old.round < length book.old.plan.pods.rounds }
    ensures rounds { Rounds book.old book.new }
    ensures entries { length book.new.history ≡ length book.old.history + result }
    ensures fits { length book.new.history < 2 ^ 64 }
{
    let before = book.history().len();
    book.round_alone();
    book.history().len() - before
}
