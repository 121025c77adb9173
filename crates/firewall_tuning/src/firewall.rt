//! The `firewall` plugin.

ghost use Rattle.std.specs.Prelude.{◌≡◌, IfOk};
ghost use Rattle.firewall_tuning.specs.Firewall as plan;

use cni_addr::{Addr, Items, NoMemory, whole};
use cni_result::{AddResult, IpEntry};
use kernel_types::{Att, Call, Chain, Kind, Rule, Table, Target};
use plugin_base::{EachKeyOnce, ask_all, rule_for_all};
use std::alloc::Global;

/// What answers the address is let through.
fn accept_replies_to(att: &Att, addr: &Addr) -> Result<Rule, NoMemory>
    ensures { IfOk result (λ rule. rule ≡ plan.accept_replies_to att.now addr.now) }
{
    Ok(Rule {
        dst: Some(whole(addr)),
        established: true,
        ..rule_for_all(att, Table::Filter, Chain::Forward, Target::Accept)?
    })
}

/// All that the address sends is let through.
fn accept_from(att: &Att, addr: &Addr) -> Result<Rule, NoMemory>
    ensures { IfOk result (λ rule. rule ≡ plan.accept_from att.now addr.now) }
{
    Ok(Rule {
        src: Some(whole(addr)),
        ..rule_for_all(att, Table::Filter, Chain::Forward, Target::Accept)?
    })
}

fn firewall_rules(alloc: Global, att: &Att, ips: &[IpEntry]) -> Result<EachKeyOnce<Rule>, NoMemory>
    ensures { IfOk result (λ rules. rules ≡ plan.firewall_rules att.now ips.now) }
{
    let mut rules = EachKeyOnce::new(alloc);
    for ip in ips {
        rules.push(accept_replies_to(att, &ip.address.addr)?)?;
        rules.push(accept_from(att, &ip.address.addr)?)?;
    }
    Ok(rules)
}

/// The rules of each address of the result before: replies to it and everything from it are forwarded. Linear in the
/// addresses.
pub fn firewall_calls(alloc: Global, att: &Att, prev: &AddResult) -> Result<Items<Call>, NoMemory>
    ensures { IfOk result (λ calls. calls ≡ plan.firewall_calls_of att.now prev.now.ips) }
{
    let rules = firewall_rules(alloc, att, prev.ips.as_slice())?;
    let mut calls = Vec::new(alloc);
    ask_all(&mut calls, rules)?;
    Ok(Items::of_vec(calls))
}

/// The result before, unchanged. Takes no memory.
pub fn firewall_result(prev: AddResult) -> AddResult
    ensures { result ≡ prev }
{
    prev
}

/// The kinds of objects that DEL takes back.
pub fn firewall_kinds() -> [Kind; 1]
    ensures { result ≡ plan.firewall_kinds }
{
    [Kind::Rules]
}
