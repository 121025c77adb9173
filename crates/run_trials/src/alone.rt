//! A generated pod.

use cni_addr::Text;
use cni_io::{MemFiles, MemSink};
use plugin_registry::{Promise, Registry};
use std::alloc::Global;
use std::mem::forget;
use tool_run::run_alone;

/// The suite of no plugin.
struct NoPlugins;

impl Promise for NoPlugins {
    ghost may_call = { λ name ask calls. ⊥ };

    ghost may_result = { λ name ask result. ⊥ };
}

/// The status of a run without files and plugins, and its sink.
fn ended(alloc: Global, words: &[Text], mut sink: MemSink) -> (u8, MemSink) {
    let mut files = MemFiles::new(alloc, Vec::new(alloc));
    let registry: Registry<NoPlugins> = Registry::new(alloc);
    let outcome = run_alone(alloc, words, &mut files, &mut sink, &registry);
    let status = outcome.status;
    forget(outcome);
    drop(registry);
    drop(files);
    (status, sink)
}

/// A pod is added, checked, kept by a GC, and checked again. What is printed of an ADD is in the rows of the program.
#[test]
fn a_generated_pod_goes_alone(rt: HostRuntime) {
    let alloc = rt.alloc();
    let words = [Text::of(alloc, "gen:1").expect(&rt, "no memory")];
    let sink = MemSink::new(alloc, Vec::new(alloc), 4096, 4096).expect(&rt, "no memory");
    let (status, sink) = ended(alloc, &words, sink);
    assert_eq!(rt; status, 0);
    let line = b"{\"calls\":47,\"commands\":4,\"leases\":1,\"ok\":4}\n";
    assert_eq!(rt; sink.written(), line.as_slice());
}
