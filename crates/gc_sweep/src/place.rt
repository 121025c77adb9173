//! Where a GC is: the sweep at hand, its owners, and the step of the one at hand.

ghost use Rattle.std.specs.Prelude.{◌≡◌, ◌<◌, ◌≤◌, ◌+◌, not, false, List, drop, filter, length, slice_get, Some};
ghost use Rattle.std.specs.Prelude.{nat_le, nat_lt, [], IfOk, IsOk, OnErr, OnOk};
ghost use Rattle.kernel_types.specs.Replies.{holds_text_or_list, is_fault};
ghost use Rattle.kernel_types.specs.declared.call.Kind.{Kind};
ghost use Rattle.pod_file.specs.declared.command.ValidAtt.{ValidAtt};
ghost use Rattle.cni_verbs.specs.Script.{call_of_work, has_no_work};
ghost use Rattle.cni_verbs.specs.Sweep.{first_sweep, all_sweeps, is_valid, step_call};
ghost use Rattle.gc_sweep.specs.Valid.{IsIndexOf};
ghost use Rattle.gc_sweep.specs.View.{HasTaken, IsPlace, jobs_left, step_of, steps_of, sweep_of, sweeps_after};
ghost use Rattle.gc_sweep.specs.View.{sweeps_from, work_of};

use crate::valid::ValidIndex;
use cni_addr::{Duplicate, Items, NoMemory, RefCounted, Text};
use kernel_types::{Att, Call, Kind, Reply};
use plugin_chain::wanted::deletion;
use std::alloc::Global;

/// The sweep at hand: none yet, that of the cached results, or that of a kind.
#[derive(Clone, Copy, Drop)]
pub(crate) enum Stage {
    Start,
    First,
    Of(Kind),
}

/// What is done about one owner (the script's `Step`): its cached result is read, or a kind is deleted until nothing of
/// it is left.
#[derive(Clone, Copy, Drop)]
pub(crate) enum OwnerStep {
    AskCached,
    Delete(Kind),
}

/// The sweep at hand, its owners, the number of the one at hand, and the number of that one's step.
///
/// Which steps an owner has depends on the kinds of a DEL, so all calls of one GC are given the same kinds
/// (`IsPlace` in `specs/View.antt`), and [`SweepPlace::take`] the index of the same valid list.
#[derive(Drop)]
pub struct SweepPlace {
    pub(crate) stage: Stage,
    pub(crate) owners: Vec<Att>,
    pub(crate) at: usize,
    pub(crate) step: usize,
}

impl SweepPlace {
    /// The place before the first call. Takes no memory.
    pub fn start(alloc: Global) -> SweepPlace
        ensures work { (kinds : List Kind)
            → work_of kinds result ≡ record { jobs = []; sweeps = all_sweeps kinds } }
        ensures range { (kinds : List Kind) → IsPlace kinds result }
    {
        SweepPlace {
            stage: Stage::Start,
            owners: Vec::new(alloc),
            at: 0,
            step: 0,
        }
    }

    /// The place before the first call of a GC that asks for the owners of each kind, and makes no DEL for those of
    /// cached results first. Takes no memory.
    pub fn by_kinds(alloc: Global) -> SweepPlace
        ensures work { (kinds : List Kind)
            → work_of kinds result ≡ record { jobs = []; sweeps = drop 1 (all_sweeps kinds) } }
        ensures range { (kinds : List Kind) → IsPlace kinds result }
    {
        SweepPlace {
            stage: Stage::First,
            owners: Vec::new(alloc),
            at: 0,
            step: 0,
        }
    }

    /// Whether an owner is at hand.
    pub fn has_owner(&self) -> bool
        ensures { result ≡ nat_lt self.now.at (length self.now.owners.items) }
    {
        self.at < self.owners.len()
    }

    /// Whether nothing is left to do.
    pub fn is_done(&self) -> bool
        ensures { (kinds : List Kind) → IsPlace kinds self.now
            → result ≡ has_no_work (jobs_left kinds self.now) (sweeps_after kinds self.now.stage) }
    {
        !self.has_owner() && next_stage(self.stage).is_none()
    }

    /// The next call, or none where nothing is left to do: it asks for the owners of the next sweep's kind, or makes
    /// the step of the owner at hand. It takes the memory of one call, whose texts are shared.
    pub fn next_call(
        &self,
        alloc: Global,
        network: &Text,
        kinds: &[Kind],
    ) -> Result<Option<RefCounted<Call>>, NoMemory>
        requires { IsPlace kinds.now self.now }
        ensures { IfOk result (λ call. call
            ≡ call_of_work network.now (jobs_left kinds.now self.now) (sweeps_after kinds.now self.now.stage)) }
    {
        if self.has_owner() {
            let step = owner_step_at(kinds, self.stage, self.step);
            let call = call_of(&self.owners[self.at], step)?;
            Ok(Some(RefCounted::of(alloc, call)?))
        } else {
            match next_stage(self.stage) {
                Some(stage) => {
                    let network = network.copy()?;
                    let kind = kind_of_stage(stage);
                    Ok(Some(RefCounted::of(alloc, Call::OwnersOf { network, kind })?))
                }
                None => Ok(None),
            }
        }
    }

    /// Goes on as a reply to the next call says. Owners that it tells are copied, and each is looked up among the valid
    /// ones; any other reply takes the same few steps. It can run out of memory only for that copy, and then the place
    /// stays.
    pub fn take(
        &mut self,
        kinds: &[Kind],
        valid: &ValidIndex,
        reply: &Reply,
    ) -> Result<(), NoMemory>
        requires { IsPlace kinds.now self.old }
        ensures work { OnOk result ((list : List ValidAtt) → IsIndexOf list valid.now
            → HasTaken kinds.now list reply.now self.old self.new) }
        ensures range { IsPlace kinds.now self.new }
        ensures err { OnErr result ((self.new ≡ self.old) × (is_fault reply.now ≡ false)) }
        ensures frees { holds_text_or_list reply.now ≡ false → IsOk result }
    {
        if self.has_owner() {
            take_step(kinds, self, reply);
            Ok(())
        } else {
            take_owners(kinds, valid, self, reply)
        }
    }
}

/// The sweep after this one.
fn next_stage(stage: Stage) -> Option<Stage>
    ensures { (kinds : List Kind) → sweeps_from kinds result ≡ sweeps_after kinds stage }
{
    match stage {
        Stage::Start => Some(Stage::First),
        Stage::First => Some(Stage::Of(Kind::Links)),
        Stage::Of(Kind::Links) => Some(Stage::Of(Kind::Rules)),
        Stage::Of(Kind::Rules) => Some(Stage::Of(Kind::Settings)),
        Stage::Of(Kind::Settings) => Some(Stage::Of(Kind::Leases)),
        Stage::Of(Kind::Leases) => Some(Stage::Of(Kind::Cached)),
        Stage::Of(Kind::Cached) => None,
    }
}

// ---- the next call

fn kind_at(kinds: &[Kind], i: usize) -> Kind
    requires { i < length kinds.now }
    ensures { slice_get kinds.now i ≡ Some result }
{
    kinds[i]
}

fn first_owner_step(kinds: &[Kind], step: usize) -> OwnerStep
    requires { step < length (steps_of (first_sweep kinds.now)) }
    ensures { slice_get (steps_of (first_sweep kinds.now)) step ≡ Some (step_of result) }
{
    if step == 0 {
        OwnerStep::AskCached
    } else {
        OwnerStep::Delete(kind_at(kinds, step - 1))
    }
}

/// The step with this number of an owner of this sweep.
fn owner_step_at(kinds: &[Kind], stage: Stage, step: usize) -> OwnerStep
    requires { step < length (steps_of (sweep_of kinds.now stage)) }
    ensures { slice_get (steps_of (sweep_of kinds.now stage)) step ≡ Some (step_of result) }
{
    match stage {
        Stage::Start | Stage::First => first_owner_step(kinds, step),
        Stage::Of(kind) => OwnerStep::Delete(kind),
    }
}

/// The kind whose owners a sweep asks for.
fn kind_of_stage(stage: Stage) -> Kind
    ensures { (kinds : List Kind) → result ≡ (sweep_of kinds stage).kind }
{
    match stage {
        Stage::Start | Stage::First => Kind::Cached,
        Stage::Of(kind) => kind,
    }
}

fn call_of(att: &Att, step: OwnerStep) -> Result<Call, NoMemory>
    ensures { IfOk result (λ call. call ≡ step_call att.now (step_of step)) }
{
    let att = att.copy()?;
    Ok(match step {
        OwnerStep::AskCached => Call::CacheGet { att },
        OwnerStep::Delete(kind) => deletion(att, kind),
    })
}

// ---- one reply

/// Goes on as a reply about the owner at hand says.
fn take_step(kinds: &[Kind], place: &mut SweepPlace, reply: &Reply)
    requires range { IsPlace kinds.now place.old }
    requires here { place.old.at < length place.old.owners.items }
    ensures work { (valid : List ValidAtt) → HasTaken kinds.now valid reply.now place.old place.new }
    ensures range { IsPlace kinds.now place.new }
{
    match reply {
        Reply::Gone(false) | Reply::Entry(_) => step_done(kinds, place),
        Reply::Fault => owner_done(kinds, place),
        _ => {}
    }
}

/// Goes on to the next sweep with the owners that a reply tells, or with none where it is a fault.
fn take_owners(
    kinds: &[Kind],
    valid: &ValidIndex,
    place: &mut SweepPlace,
    reply: &Reply,
) -> Result<(), NoMemory>
    requires range { IsPlace kinds.now place.old }
    requires past { length place.old.owners.items ≤ place.old.at }
    ensures work { OnOk result ((list : List ValidAtt) → IsIndexOf list valid.now
        → HasTaken kinds.now list reply.now place.old place.new) }
    ensures range { IsPlace kinds.now place.new }
    ensures err { OnErr result ((place.new ≡ place.old) × (is_fault reply.now ≡ false)) }
    ensures frees { holds_text_or_list reply.now ≡ false → IsOk result }
{
    match reply {
        Reply::Owners(owners) => {
            let owners = owners.copy()?;
            next_sweep(kinds, valid, place, owners);
        }
        Reply::Fault => {
            let alloc = *place.owners.allocator();
            next_sweep(kinds, valid, place, Items::new(alloc));
        }
        _ => {}
    }
    Ok(())
}

fn drop_valid(owners: &mut Vec<Att>, valid: &ValidIndex)
    ensures { (list : List ValidAtt) → IsIndexOf list valid.now
        → owners.new.items ≡ filter (λ a. not (is_valid list a)) owners.old.items }
{
    owners.retain(|att| !valid.has(att));
}

fn is_last(kinds: &[Kind], stage: Stage, step: usize) -> bool
    requires { step < length (steps_of (sweep_of kinds.now stage)) }
    ensures { result ≡ nat_le (length (steps_of (sweep_of kinds.now stage))) (step + 1) }
{
    match stage {
        Stage::Start | Stage::First => step >= kinds.len(),
        _ => true,
    }
}

/// Goes on to the owner's next step, or to the next owner.
fn step_done(kinds: &[Kind], place: &mut SweepPlace)
    requires range { IsPlace kinds.now place.old }
    requires here { place.old.at < length place.old.owners.items }
    ensures work { (valid : List ValidAtt) → HasTaken kinds.now valid (Reply.Gone false) place.old place.new }
    ensures range { IsPlace kinds.now place.new }
{
    if is_last(kinds, place.stage, place.step) {
        owner_done(kinds, place);
    } else {
        place.step += 1;
    }
}

/// Goes on to the next owner.
fn owner_done(kinds: &[Kind], place: &mut SweepPlace)
    requires range { IsPlace kinds.now place.old }
    requires here { place.old.at < length place.old.owners.items }
    ensures work { (valid : List ValidAtt) → HasTaken kinds.now valid Reply.Fault place.old place.new }
    ensures range { IsPlace kinds.now place.new }
{
    place.at += 1;
    place.step = 0;
}

/// Goes on to the next sweep, with these owners.
fn next_sweep(kinds: &[Kind], valid: &ValidIndex, place: &mut SweepPlace, owners: Items<Att>)
    requires past { length place.old.owners.items ≤ place.old.at }
    ensures work { (list : List ValidAtt) → IsIndexOf list valid.now
        → HasTaken kinds.now list (Reply.Owners owners) place.old place.new }
    ensures range { IsPlace kinds.now place.new }
{
    let mut owners = owners.into_vec();
    place.at = 0;
    place.step = 0;
    match next_stage(place.stage) {
        Some(stage) => {
            drop_valid(&mut owners, valid);
            place.owners = owners;
            place.stage = stage;
        }
        None => place.owners.clear(),
    }
}
