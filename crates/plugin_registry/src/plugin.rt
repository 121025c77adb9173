//! A plugin: its closures, and what is known of them.

ghost use Rattle.std.specs.Prelude.{◌≡◌, IfOk};
ghost use Rattle.std.specs.Result.{ForOk};
ghost use Rattle.plugin_registry.specs.Needs.{IsAskable};
ghost use Rattle.plugin_registry.specs.Own.{OwnCalls};
ghost use Rattle.plugin_registry.specs.Promised.{Keeps};

use crate::ask::{Ask, Need};
use cni_addr::{Items, NoMemory, Text};
use cni_result::AddResult;
use kernel_types::{Call, Kind};
use std::alloc::Global;
use std::marker::PhantomData;

/// What may be relied on of the answers of plugins, by the plugin's name. It has no functions: a suite of plugins is a
/// type that says what these two relations are.
pub trait Promise {
    ghost use Rattle.std.specs.Prelude.{ℕ, List};
    ghost use Rattle.plugin_registry.specs.declared.ask.Ask.{Ask};
    ghost use Rattle.kernel_types.specs.declared.call.Call.{Call};
    ghost use Rattle.cni_result.specs.declared.result.AddResult.{AddResult};

    ghost may_call: { List ℕ → Ask → List Call → Type 0 };

    ghost may_result: { List ℕ → Ask → AddResult → Type 0 };
}

/// Gives the calls of an ADD, after those of its leases.
pub type Calls = Box<dyn Fn(Global, &Ask) -> Result<Items<Call>, NoMemory>>;

/// Gives the result of an ADD.
pub type Results = Box<dyn Fn(Global, &Ask) -> Result<AddResult, NoMemory>>;

/// A plugin: closures, and what is known of them. Both may be called wherever the needs are met, and what `calls` gives
/// makes objects of the attachment alone, of the plugin's kinds.
#[derive(Drop)]
pub struct Plugin<P> {
    /// The `type` by which a task names the plugin.
    pub name: Text,
    /// The options that it looks at, in the order in which they are tested.
    pub needs: Items<Need>,
    /// The kinds of objects that it makes, in the order in which a DEL deletes them.
    pub kinds: Items<Kind>,
    pub calls: Calls,
    pub result: Results,
    pub of: PhantomData<P>,
    pub ghost calls_may: { (alloc : _) (ask : _) → IsAskable needs ask.now → Calls.pre calls alloc ask },
    pub ghost result_may: { (alloc : _) (ask : _) → IsAskable needs ask.now → Results.pre result alloc ask },
    pub ghost own: { (alloc : _) (ask : _) (r : _) → IsAskable needs ask.now → Calls.post calls alloc ask r
        → ForOk r (λ calls. OwnCalls ask.now kinds calls) },
}

impl<P: Promise> Plugin<P> {
    /// A plugin of these closures, which keep what `P` says of the name. Takes no memory.
    pub fn new(
        name: Text,
        needs: Items<Need>,
        kinds: Items<Kind>,
        calls: Calls,
        results: Results,
    ) -> Plugin<P>
        requires calls_may { (alloc : _) (ask : _) → IsAskable needs ask.now → Calls.pre calls alloc ask }
        requires result_may { (alloc : _) (ask : _) → IsAskable needs ask.now → Results.pre results alloc ask }
        requires own { (alloc : _) (ask : _) (r : _) → IsAskable needs ask.now → Calls.post calls alloc ask r
            → ForOk r (λ calls. OwnCalls ask.now kinds calls) }
        requires calls { Keeps (λ ask. ask.now) (λ r f. ForOk r f) needs (Calls.post calls) (P.may_call name) }
        requires result { Keeps (λ ask. ask.now) (λ r f. ForOk r f) needs (Results.post results) (P.may_result name) }
        ensures name { result.name ≡ name }
        ensures needs { result.needs ≡ needs }
        ensures kinds { result.kinds ≡ kinds }
        ensures closures { (result.calls ≡ calls) × (result.result ≡ results) }
        ensures calls { Keeps (λ ask. ask.now) (λ r f. ForOk r f) needs (Calls.post result.calls) (P.may_call name) }
        ensures result { Keeps (λ ask. ask.now) (λ r f. ForOk r f) needs (Results.post result.result)
            (P.may_result name) }
    {
        Plugin {
            name,
            needs,
            kinds,
            calls,
            result: results,
            of: PhantomData,
        }
    }

    /// The calls that the plugin gives. Any want of memory is the closure's.
    pub fn ask_calls(&self, alloc: Global, ask: &Ask) -> Result<Items<Call>, NoMemory>
        requires askable { IsAskable self.now.needs ask.now }
        requires promised { Keeps (λ ask. ask.now) (λ r f. ForOk r f) self.now.needs (Calls.post self.now.calls)
            (P.may_call self.now.name) }
        ensures asked { Calls.post self.now.calls alloc ask.entry result }
        ensures own { IfOk result (λ calls. OwnCalls ask.now self.now.kinds calls) }
        ensures may { IfOk result (λ calls. P.may_call self.now.name ask.now calls) }
    {
        (self.calls)(alloc, ask)
    }

    /// The result that the plugin gives. Any want of memory is the closure's.
    pub fn ask_result(&self, alloc: Global, ask: &Ask) -> Result<AddResult, NoMemory>
        requires askable { IsAskable self.now.needs ask.now }
        requires promised { Keeps (λ ask. ask.now) (λ r f. ForOk r f) self.now.needs (Results.post self.now.result)
            (P.may_result self.now.name) }
        ensures asked { Results.post self.now.result alloc ask.entry result }
        ensures may { IfOk result (λ result. P.may_result self.now.name ask.now result) }
    {
        (self.result)(alloc, ask)
    }
}
