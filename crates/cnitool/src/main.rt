//! The program `cnitool`: carries out a pod file's commands, or a session's tasks, on a modelled kernel, and prints
//! what they are answered.
//!
//! ```text
//! cnitool [--threads N] [--stop-at N] [--trace] [--dump] [--requests] [--probe FILE] PODS [LIST ..]
//! ```
//!
//! `reg:FILE` in the place of PODS names a session file, whose tasks go to plugins that the program registers: `guard`,
//! `dummy` and `vlan`. What may be relied on of them is in `specs/Suite.antt`.
//!
//! What it does is `tool_run`'s [`run`], with a gate that holds no thread; here are its words, its plugins, its files
//! and its output. It ends with the status of that call. Where the system doesn't give the words, nothing is written,
//! and the status is 6 if memory ran out, and 7 if not, as for a word that isn't UTF-8. Where memory is refused for a
//! plugin or the registry, nothing is written either, and the status is 6.
#![tactic(auto)]

mod plugins;
mod suite;

use crate::plugins::{links_alone, registered};
use crate::suite::Suite;
use cni_addr::{Items, NoMemory, Text};
use cni_io::{Files, RealFiles, RealSink, Sink};
use dummy_vlan::{dummy_needs, vlan_needs};
use guard::{guard_kinds, guard_needs};
use plugin_registry::Plugin;
use pod_threads::OpenGate;
use std::alloc::Global;
use std::env;
use std::io::ErrorKind;
use std::mem::forget;
use std::process::ExitCode;
use std::sync::Wait;
use std::thread::Threads;
use tool_run::{MEMORY_STATUS, NO_WORDS_STATUS, Outcome, run};

/// Why there are no words.
#[derive(Clone, Copy)]
enum NoWords {
    Memory,
    Unreadable,
}

impl NoWords {
    fn status(self) -> u8 {
        match self {
            NoWords::Memory => MEMORY_STATUS,
            NoWords::Unreadable => NO_WORDS_STATUS,
        }
    }
}

impl From<NoMemory> for NoWords {
    fn from(_refused: NoMemory) -> NoWords {
        NoWords::Memory
    }
}

fn main(rt: HostRuntime) -> ExitCode {
    let words = match given_words(&rt) {
        Ok(words) => words,
        Err(end) => return ExitCode::from(end.status()),
    };
    let mut files = RealFiles::new(&rt);
    let mut sink = RealSink::new(rt.stdout());
    match carry_out(&rt, rt.alloc(), words.as_slice(), &mut files, &mut sink) {
        Ok(status) => ExitCode::from(status),
        Err(NoMemory) => ExitCode::from(MEMORY_STATUS),
    }
}

/// The words of the program, without its name.
fn given_words(rt: &HostRuntime) -> Result<Items<Text>, NoWords> {
    let given = match env::args(rt) {
        Ok(given) => given,
        Err(error) if error.kind() == ErrorKind::OutOfMemory => return Err(NoWords::Memory),
        Err(_) => return Err(NoWords::Unreadable),
    };
    let mut words = Items::new(rt.alloc());
    for word in given.skip(1) {
        words.push(Text::of(rt.alloc(), word.as_str())?)?;
    }
    Ok(words)
}

/// Registers the plugins, carries out what the words say, and gives the status. The plugins are made here: a function
/// that made a box of a closure and handed it out would hide it.
fn carry_out<R: Threads + Wait + Sync, F: Files, S: Sink>(
    rt: &R,
    alloc: Global,
    words: &[Text],
    files: &mut F,
    sink: &mut S,
) -> Result<u8, NoMemory> {
    let guard: Plugin<Suite> = Plugin::new(
        Text::of(alloc, "guard")?,
        guard_needs(alloc)?,
        guard_kinds(alloc)?,
        Box::new(alloc, plugins::guard_calls)?,
        Box::new(alloc, plugins::guard_result)?,
    );
    let dummy: Plugin<Suite> = Plugin::new(
        Text::of(alloc, "dummy")?,
        dummy_needs(alloc)?,
        links_alone(alloc)?,
        Box::new(alloc, plugins::dummy_calls)?,
        Box::new(alloc, plugins::dummy_result)?,
    );
    let vlan: Plugin<Suite> = Plugin::new(
        Text::of(alloc, "vlan")?,
        vlan_needs(alloc)?,
        links_alone(alloc)?,
        Box::new(alloc, plugins::vlan_calls)?,
        Box::new(alloc, plugins::vlan_result)?,
    );
    let registry = registered(alloc, guard, dummy, vlan)?;
    let outcome = run(rt, alloc, words, files, sink, &OpenGate, &registry);
    Ok(end(outcome))
}

/// The status of the outcome, which is kept: to let go of a long history entry by entry takes a good part of a run, and
/// at its end the system takes all back.
fn end(outcome: Outcome) -> u8 {
    let status = outcome.status;
    forget(outcome);
    status
}
