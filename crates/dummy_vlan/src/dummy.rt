//! The `dummy` plugin: a link that leads nowhere (CNI plugins documentation, `plugins/main/dummy`).

ghost use Rattle.std.specs.Prelude.{◌≡◌, [], ◌∷◌, IfOk};
ghost use Rattle.kernel_types.specs.declared.call.Kind.TheVariants.{Links};
ghost use Rattle.plugin_registry.specs.Needs.{IsAskable};
ghost use Rattle.plugin_registry.specs.Own.{OwnCalls};
ghost use Rattle.dummy_vlan.specs.DummyVlan as plan;

use crate::inner::{inner_link, inner_result, link_and_addresses, mtu_need};
use cni_addr::{Items, NoMemory};
use cni_result::AddResult;
use kernel_types::{Call, LinkKind};
use plugin_base::addresses_on;
use plugin_registry::{Ask, Need};
use std::alloc::Global;

/// The options that the plugin looks at: `mtu`.
pub fn dummy_needs(alloc: Global) -> Result<Items<Need>, NoMemory>
    ensures { IfOk result (λ needs. needs ≡ plan.dummy_needs_of) }
{
    let mut needs = Items::new(alloc);
    needs.push(mtu_need(alloc)?)?;
    Ok(needs)
}

/// The calls after the leases: the link, and on it each given address once. Linear in the given addresses
/// and the options.
pub fn dummy_calls(alloc: Global, ask: &Ask) -> Result<Items<Call>, NoMemory>
    requires { IsAskable plan.dummy_needs_of ask.now }
    ensures calls { IfOk result (λ calls. calls ≡ plan.dummy_calls_of ask.now) }
    ensures own { IfOk result (λ calls. OwnCalls ask.now (Links ∷ []) calls) }
{
    let link = inner_link(ask, LinkKind::Dummy, None)?;
    let addresses = addresses_on(alloc, &ask.att, &ask.netns, ask.given.as_slice())?;
    link_and_addresses(alloc, link, addresses)
}

/// The result: the link, and the given addresses on it. Linear in the given addresses and the options.
pub fn dummy_result(alloc: Global, ask: &Ask) -> Result<AddResult, NoMemory>
    requires { IsAskable plan.dummy_needs_of ask.now }
    ensures { IfOk result (λ r. r ≡ plan.dummy_result_of ask.now) }
{
    inner_result(alloc, ask)
}
