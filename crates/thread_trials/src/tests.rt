//! Rounds by two workers and by four.

ghost use Rattle.std.specs.Prelude.{◌<◌, ◌^◌, All, IfOk, length};
ghost use Rattle.net_conf.specs.WellFormed.{IsWellFormedList};
ghost use Rattle.pod_file.specs.WellFormed.{IsWellFormedPods};
ghost use Rattle.pod_workers.specs.Plans.{IsWellFormed};

use cni_addr::{Duplicate, Items, RefCounted};
use kernel_model::{Kernel, ListKernel};
use net_conf::{NetList, network_list_laws, read_list};
use pod_file::{Pods, pod_file_laws, read_pods};
use pod_threads::{Gate, OpenGate, Rounded, round_threads};
use pod_workers::{Book, Plan, joined_plans_are_well_formed};
use std::alloc::Global;
use std::mem::forget;
use std::process::Abort;
use std::sync::Wait;
use std::sync::atomic::{AtomicBool, AtomicU64, Ordering};
use std::test::Fail;
use std::thread::Threads;

/// The most turns that a worker is held.
const TURNS: u64 = 1_000_000_000;

const LIST: &str = "{\"cniVersion\":\"1.1.0\",\"name\":\"pods\",\"plugins\":[\
{\"type\":\"bridge\",\"ipam\":{\"type\":\"host-local\",\"subnet\":\"10.88.0.0/16\"}}]}";

const TWO_ADDED: &str = "{\"opening\":{\"namespaces\":[\"/ns/a\",\"/ns/b\"]},\"rounds\":[[\
{\"verb\":\"ADD\",\"network\":\"pods\",\"container\":\"c1\",\"netns\":\"/ns/a\"},\
{\"verb\":\"ADD\",\"network\":\"pods\",\"container\":\"c2\",\"netns\":\"/ns/b\"}]]}";

const THREE_OF_TWO: &str = "{\"opening\":{\"namespaces\":[\"/ns/a\",\"/ns/b\"]},\"rounds\":[[\
{\"verb\":\"ADD\",\"network\":\"pods\",\"container\":\"c1\",\"netns\":\"/ns/a\"},\
{\"verb\":\"ADD\",\"network\":\"pods\",\"container\":\"c2\",\"netns\":\"/ns/b\"},\
{\"verb\":\"DEL\",\"network\":\"pods\",\"container\":\"c1\"}]]}";

const EIGHT_ADDED: &str =
    "{\"opening\":{\"namespaces\":[\"/ns/1\",\"/ns/2\",\"/ns/3\",\"/ns/4\",\"/ns/5\",\"/ns/6\",\
\"/ns/7\",\"/ns/8\"]},\"rounds\":[[\
{\"verb\":\"ADD\",\"network\":\"pods\",\"container\":\"c1\",\"netns\":\"/ns/1\"},\
{\"verb\":\"ADD\",\"network\":\"pods\",\"container\":\"c2\",\"netns\":\"/ns/2\"},\
{\"verb\":\"ADD\",\"network\":\"pods\",\"container\":\"c3\",\"netns\":\"/ns/3\"},\
{\"verb\":\"ADD\",\"network\":\"pods\",\"container\":\"c4\",\"netns\":\"/ns/4\"},\
{\"verb\":\"ADD\",\"network\":\"pods\",\"container\":\"c5\",\"netns\":\"/ns/5\"},\
{\"verb\":\"ADD\",\"network\":\"pods\",\"container\":\"c6\",\"netns\":\"/ns/6\"},\
{\"verb\":\"ADD\",\"network\":\"pods\",\"container\":\"c7\",\"netns\":\"/ns/7\"},\
{\"verb\":\"ADD\",\"network\":\"pods\",\"container\":\"c8\",\"netns\":\"/ns/8\"}]]}";

fn pods_of(alloc: Global, text: &str) -> Result<Pods, Fail>
    ensures { IfOk result IsWellFormedPods }
{
    pod_file_laws();
    match read_pods(alloc, text.as_bytes()) {
        Ok(pods) => Ok(pods),
        Err(_) => Err("the pods are not read".into()),
    }
}

fn list_of(alloc: Global) -> Result<NetList, Fail>
    ensures { IfOk result IsWellFormedList }
{
    network_list_laws();
    match read_list(alloc, LIST.as_bytes()) {
        Ok(list) => Ok(list),
        Err(_) => Err("the list is not read".into()),
    }
}

#[tactic(auto, using(crate::proofs::Formed::one_is_formed))]
fn lists_of(alloc: Global) -> Result<Items<RefCounted<NetList>>, Fail>
    ensures formed { IfOk result (λ lists. All IsWellFormedList lists) }
    ensures few { IfOk result (λ lists. length lists < 2 ^ 32) }
{
    let list = list_of(alloc)?;
    let mut lists = Items::new(alloc);
    lists.push(RefCounted::of(alloc, list)?)?;
    Ok(lists)
}

fn joined(lists: Items<RefCounted<NetList>>, pods: Pods) -> Result<Plan, Fail>
    requires lists { All IsWellFormedList lists }
    requires few { length lists < 2 ^ 32 }
    requires pods { IsWellFormedPods pods }
    ensures { IfOk result IsWellFormed }
{
    joined_plans_are_well_formed();
    match Plan::join(lists, pods, None) {
        Ok(plan) => Ok(plan),
        Err(_) => Err("lists and pods make no plan".into()),
    }
}

fn plan_of(alloc: Global, text: &str) -> Result<Plan, Fail>
    ensures { IfOk result IsWellFormed }
{
    let lists = lists_of(alloc)?;
    let pods = pods_of(alloc, text)?;
    joined(lists, pods)
}

/// The book of these pods as it is begun.
// no question mark where the plan is held, and no book is let go of: the proof of a drop goes through all that is held
fn book_of(rt: &impl Abort, alloc: Global, text: &str) -> Result<Book<ListKernel>, Fail> {
    let plan = plan_of(alloc, text)?;
    let Ok(opening) = plan.pods.opening.copy() else {
        panic!(rt; "no memory for the opening");
    };
    Ok(Book::begin(alloc, plan, ListKernel::of_host(opening))?)
}

/// The book after its round, and the workers' counts.
fn round<R: Threads + Wait + Abort + Sync, K: Kernel + Send + Drop, G: Gate>(
    rt: &R,
    alloc: Global,
    book: Book<K>,
    workers: u8,
    gate: &G,
) -> Rounded<K> {
    if book.ended() || workers == 0 {
        panic!(rt; "there is no such round");
    }
    match round_threads(rt, alloc, book, workers, gate) {
        Ok(rounded) => rounded,
        Err(_) => panic!(rt; "no memory for the workers"),
    }
}

/// So many workers each make so many entries in the first round of these pods.
fn try_round<R: Threads + Wait + Abort + Sync, G: Gate>(
    rt: &R,
    alloc: Global,
    text: &str,
    workers: u8,
    gate: &G,
    wanted: &[u64],
) -> Result<(), Fail> {
    let book = book_of(rt, alloc, text)?;
    let Rounded { book, counts } = round(rt, alloc, book, workers, gate);
    forget(book);
    assert_eq!(rt; counts.as_slice(), wanted);
    Ok(())
}

/// Holds the first command back before its first step until the second has made one. It counts who passes.
#[derive(Drop)]
struct Turns {
    second_stepped: AtomicBool,
    gave_up: AtomicBool,
    passed: AtomicU64,
}

fn nobody_passed() -> Turns {
    Turns {
        second_stepped: AtomicBool::new(false),
        gave_up: AtomicBool::new(false),
        passed: AtomicU64::new(0),
    }
}

impl Gate for Turns {
    fn pass(&self, command: u32, calls: u32) {
        self.passed.fetch_add(1, Ordering::SeqCst);
        if command == 2 && calls == 1 {
            self.second_stepped.store(true, Ordering::SeqCst);
        }
        if command == 1 && calls == 0 {
            self.hold();
        }
    }
}

impl Turns {
    fn hold(&self) {
        for _ in 0..TURNS {
            if self.second_stepped.load(Ordering::SeqCst) {
                return;
            }
            std::thread::yield_now();
        }
        self.gave_up.store(true, Ordering::SeqCst);
    }
}

/// The gate is passed once for each call and once for each answer.
#[test]
fn two_workers_step_at_one_time(rt: HostRuntime) -> Result<(), Fail> {
    let gate = nobody_passed();
    try_round(&rt, rt.alloc(), TWO_ADDED, 2, &gate, &[6, 6])?;
    assert_eq!(rt; gate.passed.load(Ordering::SeqCst), 14);
    assert!(rt; !gate.gave_up.load(Ordering::SeqCst));
    Ok(())
}

/// A container goes to one worker with all its commands, and the next to the next worker: an ADD makes six entries, and
/// the DEL behind it seven.
#[test]
fn containers_go_to_workers_in_turn(rt: HostRuntime) -> Result<(), Fail> {
    try_round(
        &rt,
        rt.alloc(),
        EIGHT_ADDED,
        4,
        &OpenGate,
        &[12, 12, 12, 12],
    )?;
    try_round(&rt, rt.alloc(), THREE_OF_TWO, 4, &OpenGate, &[13, 6, 0, 0])
}
