//! What a check missed, as its error names it.

ghost use Rattle.std.specs.Prelude.{◌≡◌, IfOk};
ghost use Rattle.cni_errors.specs.Answers as answers;

use crate::answer::Missed;
use cni_addr::{Cidr, NoMemory, Text, write_addr, write_cidr};
use kernel_text::texts::chain_text;
use kernel_types::terms::is_host_ns;
use kernel_types::{AddrObj, Lease, Link, RouteObj, Rule, Setting, table_text};
use std::alloc::Global;

fn place_text(ns: &str) -> &str
    ensures { result.now ≡ answers.place_text ns.entry.now }
{
    if is_host_ns(ns) { "-" } else { ns }
}

/// Two texts with a space between them.
pub(crate) fn spaced(alloc: Global, word: &str, text: &str) -> Result<Text, NoMemory>
    ensures { IfOk result (λ both. both ≡ answers.spaced word.now text.now) }
{
    Text::of(alloc, format!(in alloc; "{word} {text}")?.as_str())
}

/// What has a name of its own in a namespace, behind the name of its kind of object.
fn named_text(alloc: Global, word: &str, ns: &Text, name: &Text) -> Result<Text, NoMemory>
    ensures { IfOk result (λ text. text ≡ answers.named_text word.now ns.now name.now) }
{
    let there = spaced(alloc, place_text(ns.as_str()), name.as_str())?;
    spaced(alloc, word, there.as_str())
}

/// What a link has of a network, behind the name of its kind of object.
fn on_link_text(
    alloc: Global,
    word: &str,
    ns: &Text,
    link: &Text,
    cidr: &Cidr,
) -> Result<Text, NoMemory>
    ensures { IfOk result (λ text. text ≡ answers.on_link_text word.now ns.now link.now cidr.now) }
{
    let network = write_cidr(alloc, cidr)?;
    let on_link = spaced(alloc, link.as_str(), network.as_str())?;
    named_text(alloc, word, ns, &on_link)
}

fn link_text(alloc: Global, link: &Link) -> Result<Text, NoMemory>
    ensures { IfOk result (λ text. text ≡ answers.missed_text (Missed.Link link.now)) }
{
    named_text(alloc, "link", &link.ns, &link.name)
}

fn address_text(alloc: Global, address: &AddrObj) -> Result<Text, NoMemory>
    ensures { IfOk result (λ text. text ≡ answers.missed_text (Missed.Address address.now)) }
{
    on_link_text(alloc, "address", &address.ns, &address.link, &address.cidr)
}

fn route_text(alloc: Global, route: &RouteObj) -> Result<Text, NoMemory>
    ensures { IfOk result (λ text. text ≡ answers.missed_text (Missed.Route route.now)) }
{
    on_link_text(alloc, "route", &route.ns, &route.link, &route.dst)
}

fn rule_text(alloc: Global, rule: &Rule, number: u64) -> Result<Text, NoMemory>
    ensures { IfOk result (λ text. text ≡ answers.missed_text (Missed.Rule rule.now number)) }
{
    let table = table_text(rule.table);
    let chain = chain_text(rule.chain);
    Text::of(
        alloc,
        format!(in alloc; "rule {table} {chain} {number}")?.as_str(),
    )
}

fn setting_text(alloc: Global, setting: &Setting) -> Result<Text, NoMemory>
    ensures { IfOk result (λ text. text ≡ answers.missed_text (Missed.Setting setting.now)) }
{
    named_text(alloc, "setting", &setting.ns, &setting.key)
}

fn lease_text(alloc: Global, lease: &Lease) -> Result<Text, NoMemory>
    ensures { IfOk result (λ text. text ≡ answers.missed_text (Missed.Lease lease.now)) }
{
    let address = write_addr(alloc, &lease.addr)?;
    spaced(alloc, "lease", address.as_str())
}

/// What was missed: an object by its key, a rule by its place. The host's namespace is written `-`. The spelling is
/// this project's own.
pub(crate) fn missed_text(alloc: Global, missed: &Missed) -> Result<Text, NoMemory>
    ensures { IfOk result (λ text. text ≡ answers.missed_text missed.now) }
{
    match missed {
        Missed::Bridge(name) => spaced(alloc, "bridge", name.as_str()),
        Missed::Link(link) => link_text(alloc, link.get()),
        Missed::Address(address) => address_text(alloc, address.get()),
        Missed::Route(route) => route_text(alloc, route.get()),
        Missed::Rule { rule, number } => rule_text(alloc, rule.get(), *number),
        Missed::Setting(setting) => setting_text(alloc, setting.get()),
        Missed::Lease(lease) => lease_text(alloc, lease.get()),
    }
}
