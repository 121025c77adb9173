//! Laws on the plans of lists and pods that were read or generated. A law is a function that does nothing: a caller
//! gets it by calling it.

ghost use Rattle.std.specs.Prelude.{◌≡◌, ◌≤◌, ℕ, All, Ok, Option};
ghost use Rattle.net_conf.specs.WellFormed.{IsWellFormedList};
ghost use Rattle.pod_workers.specs.Join.{joined};
ghost use Rattle.pod_workers.specs.Plans.{IsWellFormed};
ghost use Rattle.pod_workers.specs.declared.plan.Plan.{Plan};
ghost use Rattle.tool_plan.specs.Causes.{IsReadPods};
ghost use Rattle.tool_plan.specs.Verdict.{generated_plan};
ghost use Rattle.tool_words.specs.Command.{most_pods};

use pod_file::{generator_laws, pod_file_laws};
use pod_workers::joined_plans_are_well_formed;

/// Where well-formed lists, and pods that were read, make a plan, it has these lists and is well formed.
pub(crate) fn read_plans_are_well_formed()
    ensures lists { (p q : Plan) → joined p ≡ Ok q → q.lists ≡ p.lists }
    ensures well_formed { (p q : Plan) → All IsWellFormedList p.lists → IsReadPods p.pods → joined p ≡ Ok q
        → IsWellFormed q }
{
    pod_file_laws();
    joined_plans_are_well_formed();
}

/// The plan of generated pods is well formed.
pub(crate) fn generated_plans_are_well_formed()
    ensures { (stop_at : Option ℕ) (count : ℕ) → count ≤ most_pods → IsWellFormed (generated_plan stop_at count) }
{
    generator_laws();
}
