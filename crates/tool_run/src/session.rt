//! Runs a session, one task after another, and makes its text.

ghost use Rattle.std.specs.Prelude.{◌≡◌, ◌≤◌, IfOk, Contains, length, map};
ghost use Rattle.std.specs.Result.{ForOk};
ghost use Rattle.plugin_registry.specs.Promised.{Keeps};
ghost use Rattle.session_laws.specs.EachTask.{EachTaskHolds, IsGrown};
ghost use Rattle.session_laws.specs.Views.{number};
ghost use Rattle.session_file.specs.WellFormed.{IsSessionConf};
ghost use Rattle.tool_run.specs.Reports.{RunsSession};

use crate::kernel::{FromHost, begin_session};
use cni_addr::{Items, NoMemory};
use cni_result::AddResult;
use host_tables::TableKey;
use kernel_model::Kernel;
use kernel_types::Call;
use plugin_registry::{Ask, Calls, Promise, Registry, Results};
use plugin_session::Session;
use session_laws::{each_task_holds, tasks_stay};
use session_text::session_text;
use std::alloc::Global;
use tool_plan::DueSession;

/// A session that was run to its end, and the whole text of it.
#[derive(Drop)]
pub(crate) struct RanSession<K: Kernel + Drop> {
    pub(crate) session: Session<K>,
    pub(crate) text: Vec<u8>,
}

/// Runs each task of the session by the plugins of the registry.
pub(crate) fn run_session<K: FromHost + Drop, P: Promise>(
    alloc: Global,
    due: DueSession,
    registry: &Registry<P>,
) -> Result<RanSession<K>, NoMemory>
    requires well_formed { IsSessionConf due.conf }
    requires promised { (plugin : _) → Contains registry.now.plugins.items plugin
        → Keeps (λ ask. ask.now) (λ r f. ForOk r f) plugin.needs
        (⟦<Calls as Fn(Global, &Ask) -> Result<Items<Call>, NoMemory>>⟧.post plugin.calls)
        (P.may_call plugin.name)
        × Keeps (λ ask. ask.now) (λ r f. ForOk r f) plugin.needs
        (⟦<Results as Fn(Global, &Ask) -> Result<AddResult, NoMemory>>⟧.post plugin.result)
        (P.may_result plugin.name) }
    ensures ran { IfOk result (RunsSession due) }
    ensures tasks { IfOk result (λ ran. EachTaskHolds (record {
      plugins = map (λ p. record { name = p.name; needs = p.needs; kinds = p.kinds }) registry.now.plugins.items;
      may_call = P.may_call;
      may_result = P.may_result;
    }) ran.session) }
{
    each_task_holds::<P>();
    tasks_stay();
    let DueSession {
        conf,
        asked,
        digest,
    } = due;
    let mut session: Session<K> = begin_session(alloc, &TableKey { digest }, conf)?;
    run_tasks(&mut session, registry);
    let text = session_text(alloc, &session, asked)?;
    Ok(RanSession { session, text })
}

/// Runs each task that is left.
fn run_tasks<K: Kernel + Drop, P: Promise>(session: &mut Session<K>, registry: &Registry<P>)
    requires promised { (plugin : _) → Contains registry.now.plugins.items plugin
        → Keeps (λ ask. ask.now) (λ r f. ForOk r f) plugin.needs
        (⟦<Calls as Fn(Global, &Ask) -> Result<Items<Call>, NoMemory>>⟧.post plugin.calls)
        (P.may_call plugin.name)
        × Keeps (λ ask. ask.now) (λ r f. ForOk r f) plugin.needs
        (⟦<Results as Fn(Global, &Ask) -> Result<AddResult, NoMemory>>⟧.post plugin.result)
        (P.may_result plugin.name) }
    requires grown { IsGrown session.old }
    requires left { number session.old ≤ length session.old.conf.tasks }
    requires held { EachTaskHolds (record {
      plugins = map (λ p. record { name = p.name; needs = p.needs; kinds = p.kinds }) registry.now.plugins.items;
      may_call = P.may_call;
      may_result = P.may_result;
    }) session.old }
    ensures conf { session.new.conf ≡ session.old.conf }
    ensures answered { number session.new ≡ length session.new.conf.tasks }
    ensures holds { EachTaskHolds (record {
      plugins = map (λ p. record { name = p.name; needs = p.needs; kinds = p.kinds }) registry.now.plugins.items;
      may_call = P.may_call;
      may_result = P.may_result;
    }) session.new }
{
    each_task_holds::<P>();
    tasks_stay();
    while !session.ended() {
        session.task(registry);
    }
}
