//! The input of generated pods.

ghost use Rattle.std.specs.Prelude.{◌≡◌, ◌≤◌, IfOk};
ghost use Rattle.pod_workers.specs.Plans.{IsWellFormed};
ghost use Rattle.tool_words.specs.Command.{most_pods};
ghost use Rattle.tool_plan.specs.Verdict.{generated_input, generated_plan};

use crate::laws::generated_plans_are_well_formed;
use crate::plan::PlanInput;
use cni_addr::{Items, NoMemory, RefCounted};
use pod_file::{Generated, generate};
use pod_workers::Plan;
use std::alloc::Global;

/// The input of so many generated pods, and their network. No requests and no packets go with them.
pub(crate) fn generated_input(
    alloc: Global,
    count: u32,
    stop_at: Option<u32>,
) -> Result<PlanInput, NoMemory>
    requires some { 1 ≤ count }
    requires few { count ≤ most_pods }
    ensures input { IfOk result (λ input. input ≡ generated_input stop_at count) }
    ensures well_formed { IfOk result (λ input. IsWellFormed input.plan) }
{
    Ok(PlanInput {
        plan: generated_plan(alloc, count, stop_at)?,
        requests: None,
        packets: Items::new(alloc),
    })
}

#[tactic(auto, unfolding(crate::specs::Verdict::generated_plan))]
fn generated_plan(alloc: Global, count: u32, stop_at: Option<u32>) -> Result<Plan, NoMemory>
    requires some { 1 ≤ count }
    requires few { count ≤ most_pods }
    ensures plan { IfOk result (λ plan. plan ≡ generated_plan stop_at count) }
    ensures well_formed { IfOk result IsWellFormed }
{
    generated_plans_are_well_formed();
    let Generated { list, pods } = generate(alloc, count)?;
    let mut lists = Items::new(alloc);
    lists.push(RefCounted::of(alloc, list)?)?;
    Ok(Plan {
        lists,
        pods,
        stop_at,
    })
}
