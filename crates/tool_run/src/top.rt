//! The top call: it reads words and files, carries out the plan or runs the session that they come to, and writes one
//! text or line.

ghost use Rattle.std.specs.Prelude.{◌≡◌, ⊤, Contains, map};
ghost use Rattle.std.specs.Result.{ForOk};
ghost use Rattle.plugin_registry.specs.Promised.{Keeps};
ghost use Rattle.tool_plan.specs.Dues.{NameNoFile};
ghost use Rattle.tool_plan.specs.Seen.{files_seen};
ghost use Rattle.tool_run.specs.Runs.{AskForOneThread, IsRunOf};
ghost use Rattle.tool_run.specs.Seen.{sink_seen};

use crate::kernel::{FromHost, NodeKernel};
use crate::report::report;
use crate::settle::{settle, settle_alone};
use cni_addr::{Items, NoMemory, Text};
use cni_io::{Files, Sink};
use cni_result::AddResult;
use kernel_model::Kernel;
use kernel_types::Call;
use packet_laws::every_packet_goes_as_cached;
use plugin_registry::{Ask, Calls, Promise, Registry, Results};
use plugin_session::Session;
use pod_laws::every_legal_history_is_guaranteed;
use pod_threads::Gate;
use pod_workers::{Book, one_outcome};
use std::alloc::Global;
use std::sync::Wait;
use std::thread::Threads;

/// How a run over a kernel ended.
#[derive(Drop)]
pub struct Ended<K: Kernel + Drop> {
    /// The exit status, one of those that [`pod_text::statuses`] names.
    pub status: u8,
    /// The book of the plan, where one was carried out.
    pub book: Option<Book<K>>,
    /// The session, where one was run.
    pub session: Option<Session<K>>,
}

/// How a run ended.
pub type Outcome = Ended<NodeKernel>;

/// As [`run`], over any kernel.
pub fn run_over<K, R, F, S, G, P>(
    rt: &R,
    alloc: Global,
    words: &[Text],
    files: &mut F,
    sink: &mut S,
    gate: &G,
    registry: &Registry<P>,
) -> Ended<K>
where
    K: FromHost + Send + Drop,
    R: Threads + Wait + Sync,
    F: Files,
    S: Sink,
    G: Gate,
    P: Promise,
    requires promised { (plugin : _) → Contains registry.now.plugins.items plugin
        → Keeps (λ ask. ask.now) (λ r f. ForOk r f) plugin.needs
        (⟦<Calls as Fn(Global, &Ask) -> Result<Items<Call>, NoMemory>>⟧.post plugin.calls)
        (P.may_call plugin.name)
        × Keeps (λ ask. ask.now) (λ r f. ForOk r f) plugin.needs
        (⟦<Results as Fn(Global, &Ask) -> Result<AddResult, NoMemory>>⟧.post plugin.result)
        (P.may_result plugin.name) }
    ensures run { IsRunOf words.now
        (files_seen F.files F.failure_count files.old files.new)
        (sink_seen S.written S.failure_count sink.old sink.new)
        (AskForOneThread words.now)
        (record {
          plugins = map (λ p. record { name = p.name; needs = p.needs; kinds = p.kinds }) registry.now.plugins.items;
          may_call = P.may_call;
          may_result = P.may_result;
        })
        result.status (record { book = result.book; session = result.session }) }
    ensures keeps { F.files files.new ≡ F.files files.old }
    ensures untouched { NameNoFile words.now → files.new ≡ files.old }
{
    every_legal_history_is_guaranteed();
    every_packet_goes_as_cached();
    one_outcome();
    let settled = settle(rt, alloc, words, files, gate, registry);
    report(sink, settled)
}

/// As [`run_alone`], over any kernel.
pub fn run_alone_over<K: FromHost + Drop, F: Files, S: Sink, P: Promise>(
    alloc: Global,
    words: &[Text],
    files: &mut F,
    sink: &mut S,
    registry: &Registry<P>,
) -> Ended<K>
    requires promised { (plugin : _) → Contains registry.now.plugins.items plugin
        → Keeps (λ ask. ask.now) (λ r f. ForOk r f) plugin.needs
        (⟦<Calls as Fn(Global, &Ask) -> Result<Items<Call>, NoMemory>>⟧.post plugin.calls)
        (P.may_call plugin.name)
        × Keeps (λ ask. ask.now) (λ r f. ForOk r f) plugin.needs
        (⟦<Results as Fn(Global, &Ask) -> Result<AddResult, NoMemory>>⟧.post plugin.result)
        (P.may_result plugin.name) }
    ensures run { IsRunOf words.now
        (files_seen F.files F.failure_count files.old files.new)
        (sink_seen S.written S.failure_count sink.old sink.new)
        ⊤
        (record {
          plugins = map (λ p. record { name = p.name; needs = p.needs; kinds = p.kinds }) registry.now.plugins.items;
          may_call = P.may_call;
          may_result = P.may_result;
        })
        result.status (record { book = result.book; session = result.session }) }
    ensures keeps { F.files files.new ≡ F.files files.old }
    ensures untouched { NameNoFile words.now → files.new ≡ files.old }
{
    every_legal_history_is_guaranteed();
    every_packet_goes_as_cached();
    one_outcome();
    let settled = settle_alone(alloc, words, files, registry);
    report(sink, settled)
}

/// Carries out the plan that the words and the files come to, or runs the session by the plugins of the registry, and
/// writes the text.
///
/// The words are those of the program without its name. With `--threads` above 1 each round is made by so many threads
/// at most, and by no more than it has commands: the commands of one container all go to one thread, which passes the
/// gate before each of their steps, and which thread steps when is left to the machine. With one thread, in a round of
/// one command, and where memory is refused for the threads of a round, the calling thread steps each command of the
/// round to its answer, in file order, and passes no gate. What is promised is promised if the call returns: no proof
/// says that a thread gets on, and a gate that holds one for ever holds this call for ever. A session's tasks are run
/// by the calling thread, one after another, whatever the number of threads.
pub fn run<R: Threads + Wait + Sync, F: Files, S: Sink, G: Gate, P: Promise>(
    rt: &R,
    alloc: Global,
    words: &[Text],
    files: &mut F,
    sink: &mut S,
    gate: &G,
    registry: &Registry<P>,
) -> Outcome
    requires promised { (plugin : _) → Contains registry.now.plugins.items plugin
        → Keeps (λ ask. ask.now) (λ r f. ForOk r f) plugin.needs
        (⟦<Calls as Fn(Global, &Ask) -> Result<Items<Call>, NoMemory>>⟧.post plugin.calls)
        (P.may_call plugin.name)
        × Keeps (λ ask. ask.now) (λ r f. ForOk r f) plugin.needs
        (⟦<Results as Fn(Global, &Ask) -> Result<AddResult, NoMemory>>⟧.post plugin.result)
        (P.may_result plugin.name) }
    ensures run { IsRunOf words.now
        (files_seen F.files F.failure_count files.old files.new)
        (sink_seen S.written S.failure_count sink.old sink.new)
        (AskForOneThread words.now)
        (record {
          plugins = map (λ p. record { name = p.name; needs = p.needs; kinds = p.kinds }) registry.now.plugins.items;
          may_call = P.may_call;
          may_result = P.may_result;
        })
        result.status (record { book = result.book; session = result.session }) }
    ensures keeps { F.files files.new ≡ F.files files.old }
    ensures untouched { NameNoFile words.now → files.new ≡ files.old }
{
    run_over(rt, alloc, words, files, sink, gate, registry)
}

/// The same on the calling thread alone: the number of threads is read and not used, and the commands are carried out
/// one after another, in file order. It always returns.
pub fn run_alone<F: Files, S: Sink, P: Promise>(
    alloc: Global,
    words: &[Text],
    files: &mut F,
    sink: &mut S,
    registry: &Registry<P>,
) -> Outcome
    requires promised { (plugin : _) → Contains registry.now.plugins.items plugin
        → Keeps (λ ask. ask.now) (λ r f. ForOk r f) plugin.needs
        (⟦<Calls as Fn(Global, &Ask) -> Result<Items<Call>, NoMemory>>⟧.post plugin.calls)
        (P.may_call plugin.name)
        × Keeps (λ ask. ask.now) (λ r f. ForOk r f) plugin.needs
        (⟦<Results as Fn(Global, &Ask) -> Result<AddResult, NoMemory>>⟧.post plugin.result)
        (P.may_result plugin.name) }
    ensures run { IsRunOf words.now
        (files_seen F.files F.failure_count files.old files.new)
        (sink_seen S.written S.failure_count sink.old sink.new)
        ⊤
        (record {
          plugins = map (λ p. record { name = p.name; needs = p.needs; kinds = p.kinds }) registry.now.plugins.items;
          may_call = P.may_call;
          may_result = P.may_result;
        })
        result.status (record { book = result.book; session = result.session }) }
    ensures keeps { F.files files.new ≡ F.files files.old }
    ensures untouched { NameNoFile words.now → files.new ≡ files.old }
{
    run_alone_over(alloc, words, files, sink, registry)
}
