//! The `vlan` plugin: a link that carries a VLAN of a link of the host (CNI plugins documentation,
//! `plugins/main/vlan`).

ghost use Rattle.std.specs.Prelude.{◌≡◌, true, [], ◌∷◌, IfOk};
ghost use Rattle.kernel_types.specs.declared.call.Kind.TheVariants.{Links};
ghost use Rattle.plugin_registry.specs.Needs.{IsAskable, is_met};
ghost use Rattle.plugin_registry.specs.Own.{OwnCalls};
ghost use Rattle.dummy_vlan.specs.DummyVlan as plan;

use crate::inner::{inner_link, inner_result, link_and_addresses, mtu_need, number_or, text_of};
use cni_addr::{Items, NoMemory, Text};
use cni_result::AddResult;
use kernel_types::{Call, Link, LinkKind};
use plugin_base::addresses_on;
use plugin_registry::{Ask, Form, Need, Opt};
use std::alloc::Global;

fn master_need(alloc: Global) -> Result<Need, NoMemory>
    ensures { IfOk result (λ need. need ≡ plan.master_need) }
{
    Ok(Need {
        key: Text::of(alloc, "master")?,
        form: Form::IfName,
        must: true,
    })
}

fn vlan_id_need(alloc: Global) -> Result<Need, NoMemory>
    ensures { IfOk result (λ need. need ≡ plan.vlan_id_need) }
{
    Ok(Need {
        key: Text::of(alloc, "vlanId")?,
        form: Form::Number {
            least: 1,
            most: 4094,
        },
        must: true,
    })
}

/// The options that the plugin looks at: `master`, `vlanId`, `mtu`.
pub fn vlan_needs(alloc: Global) -> Result<Items<Need>, NoMemory>
    ensures { IfOk result (λ needs. needs ≡ plan.vlan_needs_of) }
{
    let mut needs = Items::new(alloc);
    needs.push(master_need(alloc)?)?;
    needs.push(vlan_id_need(alloc)?)?;
    needs.push(mtu_need(alloc)?)?;
    Ok(needs)
}

#[tactic(auto, using(crate::proofs::Options::vlan_id_number, crate::proofs::Options::vlan_id_fits))]
fn vlan_id_of(options: &[Opt]) -> u16
    requires { is_met options.now plan.vlan_id_need ≡ true }
    ensures { result ≡ plan.vlan_id_of options.now }
{
    number_or(0, "vlanId", options) as u16
}

fn vlan_link(alloc: Global, ask: &Ask) -> Result<Link, NoMemory>
    requires { IsAskable plan.vlan_needs_of ask.now }
    ensures { IfOk result (λ link. link ≡ plan.vlan_link_of ask.now) }
{
    let id = vlan_id_of(ask.options.as_slice());
    let master = text_of(alloc, "master", ask.options.as_slice())?;
    inner_link(ask, LinkKind::Vlan { id }, master)
}

/// The calls after the leases: the link, and on it each given address once. Linear in the given addresses
/// and the options.
pub fn vlan_calls(alloc: Global, ask: &Ask) -> Result<Items<Call>, NoMemory>
    requires { IsAskable plan.vlan_needs_of ask.now }
    ensures calls { IfOk result (λ calls. calls ≡ plan.vlan_calls_of ask.now) }
    ensures own { IfOk result (λ calls. OwnCalls ask.now (Links ∷ []) calls) }
{
    let link = vlan_link(alloc, ask)?;
    let addresses = addresses_on(alloc, &ask.att, &ask.netns, ask.given.as_slice())?;
    link_and_addresses(alloc, link, addresses)
}

/// The result: the link, and the given addresses on it. Linear in the given addresses and the options.
pub fn vlan_result(alloc: Global, ask: &Ask) -> Result<AddResult, NoMemory>
    requires { IsAskable plan.vlan_needs_of ask.now }
    ensures { IfOk result (λ r. r ≡ plan.vlan_result_of ask.now) }
{
    inner_result(alloc, ask)
}
