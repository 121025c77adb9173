//! Whether a call may be made, as a test to run.

ghost use Rattle.std.specs.Prelude.{◌≡◌, true, false};
ghost use Rattle.ip_pool.specs.NextAddress.{is_candidate_or_none};
ghost use Rattle.kernel_types.specs.Apply.Calls.{last_leased};
ghost use Rattle.kernel_types.specs.Allowed.{IsAllowed, IsAllowedChange, HasRangesApart, IsVethPair, IsInnerLink};
ghost use Rattle.kernel_types.specs.Terms.{fits_master, is_host_ns, is_owned, is_peer_at, is_veth};

use cni_addr::{Addr, RangeSet, Text};
use ip_pool::{are_apart, contains_candidate};
use kernel_types::terms::{is_host_ns, is_peer_at, last_in};
use kernel_types::{Call, Change, Host, Link, Setting, Tag};

fn is_same_tag(tag: &Tag, other: &Tag) -> bool
    ensures same { result ≡ true → tag.now ≡ other.now }
    ensures found { tag.now ≡ other.now → result ≡ true }
{
    tag == other
}

// Tests are joined by `&`, which has no branches, so that a proof has no case a test.

fn is_veth_pair(host_end: &Link, inner_end: &Link) -> bool
    ensures pair { result ≡ true → IsVethPair host_end.now inner_end.now }
    ensures found { IsVethPair host_end.now inner_end.now → result ≡ true }
{
    let kinds = host_end.kind.is_veth() & inner_end.kind.is_veth();
    let tags = host_end.tag.is_owned() & is_same_tag(&inner_end.tag, &host_end.tag);
    let peers = is_peer_at(
        inner_end.ns.as_str(),
        inner_end.name.as_str(),
        &host_end.peer,
    ) & is_peer_at(
        host_end.ns.as_str(),
        host_end.name.as_str(),
        &inner_end.peer,
    );
    let places = is_host_ns(host_end.ns.as_str()) & !is_host_ns(inner_end.ns.as_str());
    kinds & tags & peers & places
}

fn is_inner_link(link: &Link) -> bool
    ensures link { result ≡ true → IsInnerLink link.now }
    ensures found { IsInnerLink link.now → result ≡ true }
{
    let fits = link.kind.fits_master(&link.master);
    let alone = link.tag.is_owned() & link.peer.is_none();
    fits & alone & !is_host_ns(link.ns.as_str())
}

fn is_attachments_setting(setting: &Setting) -> bool
    ensures owned { result ≡ true → is_owned setting.now.tag ≡ true }
    ensures inner { result ≡ true → is_host_ns setting.now.ns ≡ false }
    ensures found { is_owned setting.now.tag ≡ true → is_host_ns setting.now.ns ≡ false → result ≡ true }
{
    setting.tag.is_owned() & !is_host_ns(setting.ns.as_str())
}

fn is_candidate_or_none(set: &RangeSet, last: Option<Addr>) -> bool
    ensures { result ≡ is_candidate_or_none set.now last }
{
    match last {
        Some(addr) => contains_candidate(set, &addr),
        None => true,
    }
}

fn is_pool(set: &RangeSet) -> bool
    ensures pool { result ≡ true → HasRangesApart set.now }
    ensures found { HasRangesApart set.now → result ≡ true }
{
    are_apart(set.ranges.as_slice())
}

fn may_lease(host: &Host, network: &Text, number: u32, set: &RangeSet) -> bool
    ensures pool { result ≡ true → HasRangesApart set.now }
    ensures last { result ≡ true → is_candidate_or_none set.now (last_leased host.now network.now number) ≡ true }
    ensures found { HasRangesApart set.now
        → is_candidate_or_none set.now (last_leased host.now network.now number) ≡ true → result ≡ true }
{
    is_pool(set)
        & is_candidate_or_none(
            set,
            last_in(host.lasts.as_slice(), network.as_str(), number),
        )
}

fn is_allowed_change(change: &Change) -> bool
    ensures allowed { result ≡ true → IsAllowedChange change.now }
    ensures found { IsAllowedChange change.now → result ≡ true }
{
    match change {
        Change::DropLink(key) => !is_host_ns(key.ns.as_str()),
        Change::Flush(_) => true,
    }
}

/// Whether the call may be made in the host. Takes no memory; only LeaseNext asks something of the host, whose last
/// leased addresses it scans.
pub fn is_allowed(host: &Host, call: &Call) -> bool
    ensures allowed { result ≡ true → IsAllowed host.now call.now }
    ensures found { IsAllowed host.now call.now → result ≡ true }
{
    match call {
        Call::VethAdd {
            host_end,
            inner_end,
        } => is_veth_pair(host_end.get(), inner_end.get()),
        Call::MacvlanAdd { link } => is_inner_link(link.get()),
        Call::AddrAdd { obj } => obj.get().tag.is_owned(),
        Call::RouteAdd { obj } => obj.get().tag.is_owned(),
        Call::RuleAppend { rule } => rule.get().tag.is_owned(),
        Call::SettingSet { setting } => is_attachments_setting(setting.get()),
        Call::LeaseNext { att, number, set } => may_lease(host, &att.network, *number, set.get()),
        Call::PoolFree { set, .. } => is_pool(set.get()),
        Call::NsChange { name, .. } => !is_host_ns(name.as_str()),
        Call::Outside { change } => is_allowed_change(change),
        _ => true,
    }
}
