//! A session of `guard`: each verb, a stop and a fault.

ghost use Rattle.std.specs.Prelude.{◌≡◌, ◌∷◌, [], Contains, IfOk};
ghost use Rattle.std.specs.Result.{ForOk};
ghost use Rattle.plugin_registry.specs.Promised.{Keeps};
ghost use Rattle.plugin_registry.specs.Own.{OwnCalls};
ghost use Rattle.guard.specs.Guard as guards;

use crate::suite::GuardAlone;
use cni_addr::{Duplicate, Items, NoMemory, Text};
use cni_result::AddResult;
use guard::{guard_calls, guard_kinds, guard_needs, guard_result};
use kernel_model::{Kernel, ListKernel};
use kernel_types::{Call, Kind};
use plugin_registry::{Ask, Calls, Need, Plugin, Promise, Registry, Results};
use plugin_session::Session;
use session_file::read_session;
use session_laws::TaskAnswer;
use std::alloc::Global;
use std::process::Abort;
use std::test::Fail;

/// One container's attachment from its ADD to its second DEL; then an ADD that is stopped, one that meets a fault, one
/// without its option, and a GC.
const SESSION: &str = r#"{"network":"s","opening":{"namespaces":["/ns/a"]},"tasks":[
{"verb":"ADD","type":"guard","container":"c1","netns":"/ns/a","options":{"from":"192.0.2.1"}},
{"verb":"CHECK","type":"guard","container":"c1","netns":"/ns/a"},
{"verb":"DEL","type":"guard","container":"c1","netns":"/ns/a"},
{"verb":"DEL","type":"guard","container":"c1","netns":"/ns/a"},
{"verb":"ADD","type":"guard","container":"c2","netns":"/ns/a","options":{"from":"192.0.2.1"},"stop":2},
{"verb":"ADD","type":"guard","container":"c3","netns":"/ns/a","options":{"from":"192.0.2.1"},"faults":[2]},
{"verb":"ADD","type":"guard","container":"c4","netns":"/ns/a"},
{"verb":"GC","type":"guard"}]}"#;

/// The session before its first task.
// no question mark where it is held: the proof of a drop there goes through all that a session may hold
fn session(rt: &impl Abort, alloc: Global) -> Session<ListKernel> {
    let Ok(conf) = read_session(alloc, SESSION.as_bytes()) else {
        panic!(rt; "the session is not read");
    };
    let Ok(host) = conf.opening.copy() else {
        panic!(rt; "no memory for the opening");
    };
    Session::begin(alloc, conf, ListKernel::of_host(host)).expect(rt, "no memory")
}

/// An answer as a code: 0 of a success, 1000 of a stop, 104 of want of memory, else that of the error.
fn code_of(answer: Option<&TaskAnswer>) -> u32 {
    match answer {
        Some(TaskAnswer::Added(_)) | Some(TaskAnswer::Yes) => 0,
        Some(TaskAnswer::Refused(error)) => error.code,
        Some(TaskAnswer::Stopped { .. }) => 1000,
        Some(TaskAnswer::OutOfMemory) => 104,
        None => 2000,
    }
}

/// What the tasks came to: the number of calls of each, and its code.
fn told<K: Kernel + Drop>(
    rt: &impl Abort,
    alloc: Global,
    session: &Session<K>,
) -> Vec<(usize, u32)> {
    let mut told = Vec::new(alloc);
    for number in 1..=8u32 {
        let calls = session
            .history()
            .iter()
            .filter(|entry| entry.task == number)
            .count();
        let code = code_of(session.answer(number as u64));
        told.push((calls, code)).expect(rt, "no memory");
    }
    told
}

/// What `guard` is, besides its closures.
#[derive(Drop)]
struct Parts {
    name: Text,
    needs: Items<Need>,
    kinds: Items<Kind>,
}

fn parts_of_guard(alloc: Global) -> Result<Parts, NoMemory>
    ensures name { IfOk result (λ parts. parts.name ≡ guards.guard_name) }
    ensures needs { IfOk result (λ parts. parts.needs ≡ guards.guard_needs_of) }
    ensures kinds { IfOk result (λ parts. parts.kinds ≡ guards.guard_kinds_of) }
{
    let name = Text::of(alloc, "guard")?;
    let needs = guard_needs(alloc)?;
    let kinds = guard_kinds(alloc)?;
    Ok(Parts { name, needs, kinds })
}

/// A registry of this plugin alone.
fn registered(rt: &impl Abort, alloc: Global, plugin: Plugin<GuardAlone>) -> Registry<GuardAlone>
    ensures { result.plugins.items ≡ plugin ∷ [] }
{
    let mut registry = Registry::new(alloc);
    match registry.add(plugin) {
        Ok(()) => registry,
        Err(_) => panic!(rt; "the plugin is not added"),
    }
}

/// Runs all tasks.
fn run_all<P: Promise>(session: &mut Session<ListKernel>, registry: &Registry<P>)
    requires promised { (plugin : _) → Contains registry.now.plugins.items plugin
        → Keeps (λ ask. ask.now) (λ r f. ForOk r f) plugin.needs
        (⟦<Calls as Fn(Global, &Ask) -> Result<Items<Call>, NoMemory>>⟧.post plugin.calls)
        (P.may_call plugin.name)
        × Keeps (λ ask. ask.now) (λ r f. ForOk r f) plugin.needs
        (⟦<Results as Fn(Global, &Ask) -> Result<AddResult, NoMemory>>⟧.post plugin.result)
        (P.may_result plugin.name) }
{
    for _ in 0..8 {
        if !session.ended() {
            session.task(registry);
        }
    }
}

/// The second container's ADD is stopped behind its rule, which the GC deletes; the third's meets a fault there, and
/// takes back what it made; the fourth's has no option.
#[test]
fn a_registered_plugin_goes_through_each_verb(rt: HostRuntime) -> Result<(), Fail> {
    let alloc = rt.alloc();
    let asked: Calls = Box::new(
        alloc,
        |alloc: Global, ask: &Ask| -> Result<Items<Call>, NoMemory>
            ensures calls { IfOk result (λ calls. calls ≡ guards.guard_calls_of ask.now) }
            ensures own { IfOk result (λ calls. OwnCalls ask.now guards.guard_kinds_of calls) }
        { guard_calls(alloc, ask) },
    )?;
    let answered: Results = Box::new(
        alloc,
        |alloc: Global, _ask: &Ask| -> Result<AddResult, NoMemory>
            ensures { IfOk result (λ r. r ≡ guards.guard_result_of) }
        { guard_result(alloc) },
    )?;
    let Parts { name, needs, kinds } = parts_of_guard(alloc)?;
    let guard: Plugin<GuardAlone> = Plugin::new(name, needs, kinds, asked, answered);
    let registry = registered(&rt, alloc, guard);
    let mut session = session(&rt, alloc);
    run_all(&mut session, &registry);
    let told = told(&rt, alloc, &session);
    drop(session);
    drop(registry);
    let wanted = [
        (3, 0),
        (2, 0),
        (5, 0),
        (3, 0),
        (2, 1000),
        (5, 103),
        (0, 7),
        (7, 0),
    ];
    assert_eq!(rt; told.as_slice(), wanted.as_slice());
    Ok(())
}
