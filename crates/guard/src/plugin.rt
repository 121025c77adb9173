//! What `guard` needs, makes and answers.

ghost use Rattle.std.specs.Prelude.{◌≡◌, ◌∷◌, [], IfOk};
ghost use Rattle.std.specs.Option.{option_and_then};
ghost use Rattle.cni_addr.specs.AddrText.{addr_of_text};
ghost use Rattle.plugin_registry.specs.Needs.{value_of};
ghost use Rattle.plugin_registry.specs.Own.{OwnCalls};
ghost use Rattle.guard.specs.Guard as plan;

use cni_addr::{Addr, Items, NoMemory, RefCounted, Text, read_addr, whole};
use cni_result::{AddResult, Version, no_dns};
use kernel_types::{Call, Chain, Kind, Rule, Table, Target};
use plugin_base::rule_for_all;
use plugin_registry::{Ask, Form, Need, value_of};
use std::alloc::Global;

/// The option that the plugin looks at: `from`, an address of either family, which must be there.
pub fn guard_needs(alloc: Global) -> Result<Items<Need>, NoMemory>
    ensures { IfOk result (λ needs. needs ≡ plan.guard_needs_of) }
{
    let mut needs = Items::new(alloc);
    needs.push(Need {
        key: Text::of(alloc, "from")?,
        form: Form::Address,
        must: true,
    })?;
    Ok(needs)
}

/// The kinds of what the plugin makes: rules alone.
pub fn guard_kinds(alloc: Global) -> Result<Items<Kind>, NoMemory>
    ensures { IfOk result (λ kinds. kinds ≡ plan.guard_kinds_of) }
{
    let mut kinds = Items::new(alloc);
    kinds.push(Kind::Rules)?;
    Ok(kinds)
}

/// The address in the option `from`.
fn from(ask: &Ask) -> Option<Addr>
    ensures { result ≡ option_and_then addr_of_text (value_of plan.from_key ask.now.options) }
{
    match value_of("from", ask.options.as_slice()) {
        None => None,
        Some(text) => read_addr(text.as_bytes()),
    }
}

/// The call after the leases: a rule that accepts what is forwarded from the address in `from`. What was leased is not
/// looked at. Where `from` is no address there is no call; the plugin isn't asked then.
pub fn guard_calls(alloc: Global, ask: &Ask) -> Result<Items<Call>, NoMemory>
    ensures calls { IfOk result (λ calls. calls ≡ plan.guard_calls_of ask.now) }
    ensures own { IfOk result (λ calls. OwnCalls ask.now plan.guard_kinds_of calls) }
{
    let mut calls = Items::new(alloc);
    if let Some(addr) = from(ask) {
        let rule = Rule {
            src: Some(whole(&addr)),
            ..rule_for_all(&ask.att, Table::Filter, Chain::Forward, Target::Accept)?
        };
        calls.push(Call::RuleAppend {
            rule: RefCounted::of(alloc, rule)?,
        })?;
    }
    Ok(calls)
}

/// The result, which has no interface and no address.
pub fn guard_result(alloc: Global) -> Result<AddResult, NoMemory>
    ensures { IfOk result (λ r. r ≡ plan.guard_result_of) }
{
    Ok(AddResult {
        version: Version::V1_1,
        interfaces: Items::new(alloc),
        ips: Items::new(alloc),
        routes: Items::new(alloc),
        dns: no_dns(alloc)?,
    })
}
