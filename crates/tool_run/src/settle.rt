//! What a run is to report.

ghost use Rattle.std.specs.Prelude.{◌≡◌, IfOk, Contains, map};
ghost use Rattle.std.specs.Result.{ForOk};
ghost use Rattle.plugin_registry.specs.Promised.{Keeps};
ghost use Rattle.tool_plan.specs.Dues.{NameNoFile};
ghost use Rattle.tool_plan.specs.Seen.{files_seen};
ghost use Rattle.tool_run.specs.Reports.{HoldsBySuite, IsSettledInOrder, Settles};
ghost use Rattle.tool_run.specs.Runs.{AskForOneThread};

use crate::carry::{CarriedOut, carry_out, carry_out_alone};
use crate::kernel::FromHost;
use crate::session::{RanSession, run_session};
use cni_addr::{Items, NoMemory, Text};
use cni_io::Files;
use cni_result::AddResult;
use kernel_model::Kernel;
use kernel_types::Call;
use plugin_registry::{Ask, Calls, Promise, Registry, Results};
use pod_threads::Gate;
use std::alloc::Global;
use std::sync::Wait;
use std::thread::Threads;
use tool_plan::{Due, NoPlan, read_due};

/// What was carried out.
#[derive(Drop)]
pub(crate) enum Settled<K: Kernel + Drop> {
    Plan(CarriedOut<K>),
    Session(RanSession<K>),
}

/// What the words and the files come to: a plan, carried out by at most as many threads as the words ask for, or a
/// session, run by the plugins of the registry.
pub(crate) fn settle<K, R, F, G, P>(
    rt: &R,
    alloc: Global,
    words: &[Text],
    files: &mut F,
    gate: &G,
    registry: &Registry<P>,
) -> Result<Settled<K>, NoPlan>
where
    K: FromHost + Send + Drop,
    R: Threads + Wait + Sync,
    F: Files,
    G: Gate,
    P: Promise,
    requires promised { (plugin : _) → Contains registry.now.plugins.items plugin
        → Keeps (λ ask. ask.now) (λ r f. ForOk r f) plugin.needs
        (⟦<Calls as Fn(Global, &Ask) -> Result<Items<Call>, NoMemory>>⟧.post plugin.calls)
        (P.may_call plugin.name)
        × Keeps (λ ask. ask.now) (λ r f. ForOk r f) plugin.needs
        (⟦<Results as Fn(Global, &Ask) -> Result<AddResult, NoMemory>>⟧.post plugin.result)
        (P.may_result plugin.name) }
    ensures settles { Settles words.now (files_seen F.files F.failure_count files.old files.new) result }
    ensures order { AskForOneThread words.now → IfOk result IsSettledInOrder }
    ensures tasks { IfOk result (HoldsBySuite (record {
      plugins = map (λ p. record { name = p.name; needs = p.needs; kinds = p.kinds }) registry.now.plugins.items;
      may_call = P.may_call;
      may_result = P.may_result;
    })) }
    ensures keeps { F.files files.new ≡ F.files files.old }
    ensures untouched { NameNoFile words.now → files.new ≡ files.old }
{
    match read_due(alloc, words, files)? {
        Due::Plan(due) => {
            let made = carry_out(rt, alloc, due, gate)?;
            Ok(Settled::Plan(made))
        }
        Due::Session(due) => {
            let ran = run_session(alloc, due, registry)?;
            Ok(Settled::Session(ran))
        }
    }
}

/// The same on the calling thread.
pub(crate) fn settle_alone<K: FromHost + Drop, F: Files, P: Promise>(
    alloc: Global,
    words: &[Text],
    files: &mut F,
    registry: &Registry<P>,
) -> Result<Settled<K>, NoPlan>
    requires promised { (plugin : _) → Contains registry.now.plugins.items plugin
        → Keeps (λ ask. ask.now) (λ r f. ForOk r f) plugin.needs
        (⟦<Calls as Fn(Global, &Ask) -> Result<Items<Call>, NoMemory>>⟧.post plugin.calls)
        (P.may_call plugin.name)
        × Keeps (λ ask. ask.now) (λ r f. ForOk r f) plugin.needs
        (⟦<Results as Fn(Global, &Ask) -> Result<AddResult, NoMemory>>⟧.post plugin.result)
        (P.may_result plugin.name) }
    ensures settles { Settles words.now (files_seen F.files F.failure_count files.old files.new) result }
    ensures order { IfOk result IsSettledInOrder }
    ensures tasks { IfOk result (HoldsBySuite (record {
      plugins = map (λ p. record { name = p.name; needs = p.needs; kinds = p.kinds }) registry.now.plugins.items;
      may_call = P.may_call;
      may_result = P.may_result;
    })) }
    ensures keeps { F.files files.new ≡ F.files files.old }
    ensures untouched { NameNoFile words.now → files.new ≡ files.old }
{
    match read_due(alloc, words, files)? {
        Due::Plan(due) => {
            let made = carry_out_alone(alloc, due)?;
            Ok(Settled::Plan(made))
        }
        Due::Session(due) => {
            let ran = run_session(alloc, due, registry)?;
            Ok(Settled::Session(ran))
        }
    }
}
