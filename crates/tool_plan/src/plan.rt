//! The plan that the files come to, or why there is none.

ghost use Rattle.std.specs.Prelude.{◌≡◌, ◌≤◌, [], None, Some, IfOk, All, length};
ghost use Rattle.net_conf.specs.WellFormed.{IsWellFormedList};
ghost use Rattle.pod_workers.specs.Plans.{IsWellFormed};
ghost use Rattle.tool_words.specs.Command.{most_lists};
ghost use Rattle.tool_words.specs.declared.source.Source.TheVariants.{Files};
ghost use Rattle.tool_plan.specs.Causes.{GivesJudged, GivesStored, IsReadPods, ReachesFile, ReachesList};
ghost use Rattle.tool_plan.specs.Verdict.{IsInputBy, input_of_files, judged_list, judged_packets, judged_plan};
ghost use Rattle.tool_plan.specs.Verdict.{judged_pods, lists_of, stored_bytes, stored_list, stored_lists};
ghost use Rattle.tool_plan.specs.Verdict.{stored_packets, stored_pods};

use crate::laws::read_plans_are_well_formed;
use crate::lines::{error_line, reason_line};
use crate::refusals::{blamed_file, list_error, packets_error, plan_error, pods_error};
use cni_addr::{Duplicate, Items, NoMemory, RefCounted, Text};
use cni_io::{FileFault, Files};
use net_conf::{ConfError, NetList};
use packet_probe::{Packet, PacketsError};
use plugin_requests::RawList;
use pod_file::{PodError, Pods};
use pod_workers::Plan;
use std::alloc::Global;
use tool_words::Named;

/// The most bytes that a file may have.
const MOST_BYTES: u64 = 16_777_216;

/// A plan, and what is to be printed of it that words alone don't say.
#[derive(Drop)]
pub struct PlanInput {
    pub plan: Plan,
    /// The plan's lists with their plugins' objects, where requests are asked for.
    pub requests: Option<Items<RawList>>,
    pub packets: Items<Packet>,
}

/// Why there is nothing to carry out.
#[derive(Drop)]
pub enum NoPlan {
    /// The words aren't taken.
    Usage,
    /// A file or the plan is refused, and this line says why.
    Line(Vec<u8>),
    /// A read failed, and this line names the file.
    Unread(Vec<u8>),
    /// Memory ran out.
    NoMemory,
}

impl From<NoMemory> for NoPlan {
    ghost use Rattle.tool_plan.specs.declared.plan.NoPlan.TheVariants as no_plan;

    ghost from_gives = { λ _ end. end ≡ no_plan.NoMemory };

    fn from(_refused: NoMemory) -> NoPlan {
        NoPlan::NoMemory
    }
}

/// Reads the pod file, then each network list in order, then the packet file if one is named, and joins lists and pods.
/// The bytes that are taken are kept: the key of the kernel is made of them once there is a plan.
pub(crate) fn read_input<F: Files>(
    alloc: Global,
    files: &mut F,
    named: &Named,
    taken: &mut Vec<Vec<u8>>,
) -> Result<PlanInput, NoPlan>
    requires { length named.now.lists ≤ most_lists }
    ensures gives { GivesStored (λ input. input) (F.files files.old)
        (F.failure_count files.old) (F.failure_count files.new)
        (ReachesFile (F.files files.old) (Files named.now))
        (λ stored. input_of_files stored named.now) result }
    ensures by { IfOk result (IsInputBy (Files named.now)) }
    ensures well_formed { IfOk result (λ input. IsWellFormed input.plan) }
    ensures keeps { F.files files.new ≡ F.files files.old }
    ensures later { F.failure_count files.old ≤ F.failure_count files.new }
{
    let pods = read_pods(alloc, files, named.pods.as_str(), taken)?;
    let raws = read_lists(alloc, files, named.lists.as_slice(), taken)?;
    let packets = read_packets(alloc, files, &named.packets, taken)?;
    let lists = shared_lists(alloc, raws.as_slice())?;
    let plan = join(alloc, named, pods, lists)?;
    Ok(PlanInput {
        plan,
        requests: named.requests.then_some(raws),
        packets,
    })
}

#[tactic(auto, using(crate::proofs::Stopping::stopping), unfolding(crate::specs::Verdict::judged_plan))]
fn join(
    alloc: Global,
    named: &Named,
    pods: Pods,
    lists: Items<RefCounted<NetList>>,
) -> Result<Plan, NoPlan>
    requires few { length lists ≤ most_lists }
    requires pods_read { IsReadPods pods }
    requires lists_formed { All IsWellFormedList lists }
    ensures gives { GivesJudged result (judged_plan named.now pods lists) }
    ensures lists { IfOk result (λ plan. plan.lists ≡ lists) }
    ensures well_formed { IfOk result IsWellFormed }
{
    read_plans_are_well_formed();
    match Plan::join(lists, pods, named.stop_at) {
        Ok(plan) => Ok(plan),
        Err(end) => {
            let blamed = blamed_file(named.pods.as_str(), named.lists.as_slice(), end);
            Err(NoPlan::Line(error_line(alloc, &plan_error(alloc, end)?, blamed)?))
        }
    }
}

#[tactic(auto, using(crate::proofs::Stopping::stopping), unfolding(crate::specs::Verdict::stored_pods))]
fn read_pods<F: Files>(
    alloc: Global,
    files: &mut F,
    file: &str,
    taken: &mut Vec<Vec<u8>>,
) -> Result<Pods, NoPlan>
    ensures gives { GivesStored (λ pods. pods) (F.files files.old)
        (F.failure_count files.old) (F.failure_count files.new)
        (λ name. name ≡ file.now) (λ stored. stored_pods stored file.now) result }
    ensures read { IfOk result IsReadPods }
    ensures keeps { F.files files.new ≡ F.files files.old }
    ensures later { F.failure_count files.old ≤ F.failure_count files.new }
{
    let bytes = read_bytes(alloc, files, file)?;
    let pods = pods_of_bytes(alloc, bytes.as_slice(), file)?;
    keep(taken, bytes)?;
    Ok(pods)
}

#[tactic(auto, using(crate::proofs::Stopping::stopping))]
fn pods_of_bytes(alloc: Global, bytes: &[u8], file: &str) -> Result<Pods, NoPlan>
    ensures gives { GivesJudged result (judged_pods file.now bytes.now) }
    ensures read { IfOk result IsReadPods }
{
    match pod_file::read_pods(alloc, bytes) {
        Ok(pods) => Ok(pods),
        Err(PodError::NoMemory) => Err(NoPlan::NoMemory),
        Err(end) => Err(NoPlan::Line(error_line(alloc, &pods_error(alloc, &end)?, file)?)),
    }
}

fn read_lists<F: Files>(
    alloc: Global,
    files: &mut F,
    names: &[Text],
    taken: &mut Vec<Vec<u8>>,
) -> Result<Items<RawList>, NoPlan>
    ensures gives { GivesStored (λ raws. raws) (F.files files.old)
        (F.failure_count files.old) (F.failure_count files.new)
        (ReachesList (F.files files.old) names.now) (λ stored. stored_lists stored names.now) result }
    ensures count { IfOk result (λ raws. length raws ≡ length names.now) }
    ensures keeps { F.files files.new ≡ F.files files.old }
    ensures later { F.failure_count files.old ≤ F.failure_count files.new }
{
    let mut raws = Items::new(alloc);
    for name in names {
        let raw = read_list(alloc, files, name.as_str(), taken)?;
        raws.push(raw)?;
    }
    Ok(raws)
}

#[tactic(auto, using(crate::proofs::Stopping::stopping), unfolding(crate::specs::Verdict::stored_list))]
fn read_list<F: Files>(
    alloc: Global,
    files: &mut F,
    file: &str,
    taken: &mut Vec<Vec<u8>>,
) -> Result<RawList, NoPlan>
    ensures gives { GivesStored (λ raw. raw) (F.files files.old)
        (F.failure_count files.old) (F.failure_count files.new)
        (λ name. name ≡ file.now) (λ stored. stored_list stored file.now) result }
    ensures keeps { F.files files.new ≡ F.files files.old }
    ensures later { F.failure_count files.old ≤ F.failure_count files.new }
{
    let bytes = read_bytes(alloc, files, file)?;
    let raw = list_of_bytes(alloc, bytes.as_slice(), file)?;
    keep(taken, bytes)?;
    Ok(raw)
}

#[tactic(auto, using(crate::proofs::Stopping::stopping))]
fn list_of_bytes(alloc: Global, bytes: &[u8], file: &str) -> Result<RawList, NoPlan>
    ensures { GivesJudged result (judged_list file.now bytes.now) }
{
    match RawList::read(alloc, bytes) {
        Ok(raw) => Ok(raw),
        Err(ConfError::NoMemory) => Err(NoPlan::NoMemory),
        Err(end) => Err(NoPlan::Line(error_line(alloc, &list_error(alloc, &end)?, file)?)),
    }
}

/// The lists, each shared with its plugins' objects.
fn shared_lists(alloc: Global, raws: &[RawList]) -> Result<Items<RefCounted<NetList>>, NoMemory>
    ensures lists { IfOk result (λ lists. lists ≡ lists_of raws.now) }
    ensures formed { IfOk result (All IsWellFormedList) }
{
    let mut lists = Items::new(alloc);
    for raw in raws {
        raw.is_raw();
        lists.push(raw.list().copy()?)?;
    }
    Ok(lists)
}

/// The packets of the file that is named, if one is.
#[tactic(auto, unfolding(crate::specs::Verdict::stored_packets))]
fn read_packets<F: Files>(
    alloc: Global,
    files: &mut F,
    file: &Option<Text>,
    taken: &mut Vec<Vec<u8>>,
) -> Result<Items<Packet>, NoPlan>
    ensures gives { GivesStored (λ packets. packets) (F.files files.old)
        (F.failure_count files.old) (F.failure_count files.new)
        (λ name. file.now ≡ Some name) (λ stored. stored_packets stored file.now) result }
    ensures none { file.now ≡ None → IfOk result (λ packets. packets ≡ []) }
    ensures keeps { F.files files.new ≡ F.files files.old }
    ensures later { F.failure_count files.old ≤ F.failure_count files.new }
{
    match file {
        Some(file) => read_packet_file(alloc, files, file.as_str(), taken),
        None => Ok(Items::new(alloc)),
    }
}

#[tactic(auto, using(crate::proofs::Stopping::stopping), unfolding(crate::specs::Verdict::stored_packets))]
fn read_packet_file<F: Files>(
    alloc: Global,
    files: &mut F,
    file: &str,
    taken: &mut Vec<Vec<u8>>,
) -> Result<Items<Packet>, NoPlan>
    ensures gives { GivesStored (λ packets. packets) (F.files files.old)
        (F.failure_count files.old) (F.failure_count files.new)
        (λ name. name ≡ file.now) (λ stored. stored_packets stored (Some file.now)) result }
    ensures keeps { F.files files.new ≡ F.files files.old }
    ensures later { F.failure_count files.old ≤ F.failure_count files.new }
{
    let bytes = read_bytes(alloc, files, file)?;
    let packets = packets_of_bytes(alloc, bytes.as_slice(), file)?;
    keep(taken, bytes)?;
    Ok(packets)
}

#[tactic(auto, using(crate::proofs::Stopping::stopping))]
fn packets_of_bytes(alloc: Global, bytes: &[u8], file: &str) -> Result<Items<Packet>, NoPlan>
    ensures { GivesJudged result (judged_packets file.now bytes.now) }
{
    match packet_probe::read_packets(alloc, bytes) {
        Ok(packets) => Ok(packets),
        Err(PacketsError::NoMemory) => Err(NoPlan::NoMemory),
        Err(end) => Err(NoPlan::Line(error_line(alloc, &packets_error(alloc, &end)?, file)?)),
    }
}

/// Puts the bytes of a file behind those of the files before.
pub(crate) fn keep(taken: &mut Vec<Vec<u8>>, bytes: Vec<u8>) -> Result<(), NoMemory> {
    taken.push(bytes)?;
    Ok(())
}

#[tactic(auto, using(crate::proofs::Stopping::stopping))]
pub(crate) fn read_bytes<F: Files>(
    alloc: Global,
    files: &mut F,
    file: &str,
) -> Result<Vec<u8>, NoPlan>
    ensures gives { GivesStored (λ bytes. bytes.items) (F.files files.old)
        (F.failure_count files.old) (F.failure_count files.new)
        (λ name. name ≡ file.now) (λ stored. stored_bytes stored file.now) result }
    ensures keeps { F.files files.new ≡ F.files files.old }
    ensures later { F.failure_count files.old ≤ F.failure_count files.new }
{
    match files.read(alloc, file, MOST_BYTES) {
        Ok(bytes) => Ok(bytes),
        Err(FileFault::Missing) => Err(NoPlan::Line(reason_line(alloc, "missing", file)?)),
        Err(FileFault::TooLarge { .. }) => Err(NoPlan::Line(reason_line(
            alloc,
            "too large",
            file,
        )?)),
        Err(FileFault::Failed) => Err(NoPlan::Unread(reason_line(alloc, "read", file)?)),
        Err(FileFault::NoMemory) => Err(NoPlan::NoMemory),
    }
}
