//! What both plugins share: the container's link with its addresses, and what the options say of it.

ghost use Rattle.std.specs.Prelude.{◌≡◌, ◌^◌, ◌-◌, true, ◌∷◌, map, IfOk};
ghost use Rattle.std.specs.Str.Parse.{digits_value};
ghost use Rattle.kernel_types.specs.declared.call.Call.TheVariants.{AddrAdd, MacvlanAdd};
ghost use Rattle.plugin_registry.specs.Needs.{is_met, is_number};
ghost use Rattle.plugin_registry.specs.Needs as tests;
ghost use Rattle.dummy_vlan.specs.DummyVlan as plan;

use cni_addr::{Duplicate, Items, NoMemory, RefCounted, Text};
use cni_result::{AddResult, Interface, Version, no_dns};
use host_local::ipam_result_of;
use kernel_types::{AddrObj, Call, Link, LinkKind, NamedAtt, Tag};
use plugin_base::{EachKeyOnce, ask_all, completed, inner_interface, inner_key};
use plugin_registry::{Ask, Form, Need, Opt, value_of};
use std::alloc::Global;

// ---- options

/// The need of an MTU, in bytes.
pub(crate) fn mtu_need(alloc: Global) -> Result<Need, NoMemory>
    ensures { IfOk result (λ need. need ≡ plan.mtu_need) }
{
    Ok(Need {
        key: Text::of(alloc, "mtu")?,
        form: Form::Number {
            least: 68,
            most: 65_535,
        },
        must: false,
    })
}

/// The number that a numeral of 32 bits writes. Who asks knows that it is one, so reading it can't fail.
fn number_in(numeral: &str) -> u32
    requires { is_number 0 (2 ^ 32 - 1) numeral.now ≡ true }
    ensures { result ≡ digits_value 10 numeral.now }
{
    match numeral.parse::<u32>() {
        Ok(number) => number,
        Err(_) => unreachable!(),
    }
}

/// The number under the key, or `absent` where the option isn't there.
pub(crate) fn number_or(absent: u32, key: &str, options: &[Opt]) -> u32
    requires { plan.IsNumberOrAbsent key.now options.now }
    ensures { result ≡ plan.number_or absent key.now options.now }
{
    match value_of(key, options) {
        None => absent,
        Some(numeral) => number_in(numeral),
    }
}

/// The text under the key, where the option is there.
pub(crate) fn text_of(alloc: Global, key: &str, options: &[Opt]) -> Result<Option<Text>, NoMemory>
    ensures { IfOk result (λ text. text ≡ tests.value_of key.now options.now) }
{
    match value_of(key, options) {
        None => Ok(None),
        Some(text) => Ok(Some(Text::of(alloc, text)?)),
    }
}

/// In bytes.
#[tactic(auto, using(crate::proofs::Options::mtu_number))]
fn mtu_of(options: &[Opt]) -> u32
    requires { is_met options.now plan.mtu_need ≡ true }
    ensures { result ≡ plan.mtu_of options.now }
{
    number_or(1500, "mtu", options)
}

// ---- the link

/// The container's link, of this kind and on this master.
pub(crate) fn inner_link(ask: &Ask, kind: LinkKind, master: Option<Text>) -> Result<Link, NoMemory>
    requires { is_met ask.now.options plan.mtu_need ≡ true }
    ensures { IfOk result (λ link. link ≡ plan.inner_link ask.now kind master) }
{
    let key = inner_key(&ask.att, &ask.netns)?;
    let tag = Tag::Own(ask.att.copy()?);
    let mtu = mtu_of(ask.options.as_slice());
    Ok(Link {
        master,
        ..Link::new(key, kind, ask.att.inner_mac(), mtu, tag)
    })
}

/// The calls that make the link and put the addresses on it. Linear in the addresses.
pub(crate) fn link_and_addresses(
    alloc: Global,
    link: Link,
    addresses: EachKeyOnce<AddrObj>,
) -> Result<Items<Call>, NoMemory>
    ensures { IfOk result (λ calls. calls ≡ MacvlanAdd link ∷ map AddrAdd addresses) }
{
    let mut calls = Vec::new(alloc);
    calls.push(Call::MacvlanAdd {
        link: RefCounted::of(alloc, link)?,
    })?;
    ask_all(&mut calls, addresses)?;
    Ok(Items::of_vec(calls))
}

// ---- the result

/// The interfaces of the result: the link alone.
fn inner_interfaces(alloc: Global, ask: &Ask) -> Result<Items<Interface>, NoMemory>
    requires { is_met ask.now.options plan.mtu_need ≡ true }
    ensures { IfOk result (λ interfaces. interfaces ≡ plan.inner_interfaces ask.now) }
{
    let named = NamedAtt::of(alloc, ask.att.copy()?)?;
    let mtu = mtu_of(ask.options.as_slice());
    let mut interfaces = Items::new(alloc);
    interfaces.push(inner_interface(&named, &ask.netns, mtu, Version::V1_1)?)?;
    Ok(interfaces)
}

/// The result: the link, and the given addresses on it. Linear in the given addresses and the options.
pub(crate) fn inner_result(alloc: Global, ask: &Ask) -> Result<AddResult, NoMemory>
    requires { is_met ask.now.options plan.mtu_need ≡ true }
    ensures { IfOk result (λ r. r ≡ plan.inner_result ask.now) }
{
    let interfaces = inner_interfaces(alloc, ask)?;
    let ipam = ipam_result_of(alloc, None, ask.given.as_slice(), Version::V1_1)?;
    completed(
        alloc,
        &ipam,
        interfaces,
        0,
        Items::new(alloc),
        no_dns(alloc)?,
    )
}
