//! Laws of the modelled kernel, each carried by a function that does nothing.
//!
//! A caller that has a sound host, and a call that may be made in it, calls the function where its proof wants the law,
//! or a lemma above this crate cites the lemma that its answer names. These stand in `proofs/`: `EveryCall` has the
//! laws over all calls, `Isolation`, `SoundHosts` and `LeasedAddress` what follows.

ghost use Rattle.std.specs.Prelude.{◌≡◌, true, false, Contains, Some};
ghost use Rattle.ip_pool.specs.NextAddress.{is_candidate, is_taken, IsExhausted, IsNextAddress};
ghost use Rattle.kernel_types.specs.Allowed.{IsAllowed};
ghost use Rattle.kernel_types.specs.Apply.{apply};
ghost use Rattle.kernel_types.specs.Apply.Calls.{goes_with, goes_with_ns, lease_next_of};
ghost use Rattle.kernel_types.specs.Isolation.{deletes_for, ensures_shared, is_from_outside, KeepsPart, KeepsUnowned};
ghost use Rattle.kernel_types.specs.Isolation.{names_att, RemovesOwn};
ghost use Rattle.kernel_types.specs.Keys.{TellsKeys, addr_key, is_same_addr, is_same_route, is_same_setting, route_key};
ghost use Rattle.kernel_types.specs.Keys.{setting_key};
ghost use Rattle.kernel_types.specs.Opening.{opening_with, AreNamespaceNames, AreOutsideLinks};
ghost use Rattle.kernel_types.specs.Replies.{is_fault, holds_text_or_list};
ghost use Rattle.kernel_types.specs.Sound.{AreInPlaces, HasTagsOn, IsSound, is_in_ns_or_peer, is_link_or_peer};
ghost use Rattle.kernel_types.specs.Sound.{NoAddressTwice, NoNamespaceOwned};
ghost use Rattle.kernel_types.specs.Touch.{Touches};
ghost use Rattle.kernel_types.specs.Terms.{last_leased, leased_addresses};

use crate::call::{Call, Reply};
use crate::object::{Att, Host, Link};
use cni_addr::{Addr, Items, RangeSet, Text};

/// A host is sound that has nothing but what was made outside: namespaces, with names that aren't empty and that no two
/// share, and devices and bridges, in the host's own namespace or in these, each at a place of its own.
pub fn an_opening_is_sound(names: &Items<Text>, links: &Items<Link>)
    requires names { AreNamespaceNames names.now }
    requires links { AreOutsideLinks names.now links.now }
    ensures { IsSound (opening_with names.now links.now) }
{}

/// Every call that may be made leaves a sound host sound: keys stay distinct, and tags, places and peers go on to fit.
pub fn every_call_keeps_a_host_sound(host: &Host, call: &Call)
    requires sound { IsSound host.now }
    requires allowed { IsAllowed host.now call.now }
    ensures { IsSound (apply host.now call.now).0 }
{}

/// A call that names an attachment changes, removes and appends only that attachment's objects, and of the addresses
/// that were leased last only LeaseNext moves one, that of its pool. The calls that ensure something shared append at
/// most that. What is done from outside removes nothing that is shared.
pub fn every_call_touches_its_own_alone(host: &Host, call: &Call)
    requires sound { IsSound host.now }
    requires allowed { IsAllowed host.now call.now }
    ensures { Touches call.now host.now (apply host.now call.now).0 }
{}

/// A kernel never replies with a fault, and where its reply holds a text or a list the host is as before.
pub fn no_call_replies_fault(host: &Host, call: &Call)
    ensures no_fault { is_fault (apply host.now call.now).1 ≡ false }
    ensures leaves { holds_text_or_list (apply host.now call.now).1 ≡ true → (apply host.now call.now).0 ≡ host.now }
{}

/// A call of the runtime that doesn't name an attachment leaves that attachment's objects as they are, list by list.
pub fn no_call_changes_another_attachment(host: &Host, call: &Call, other: &Att)
    requires sound { IsSound host.now }
    requires allowed { IsAllowed host.now call.now }
    requires inside { is_from_outside call.now ≡ false }
    requires other { names_att other.now call.now ≡ false }
    ensures { KeepsPart other.now host.now (apply host.now call.now).0 }
{}

/// A call of the runtime, unless it ensures something shared, leaves the objects that no attachment owns as they are.
pub fn no_call_changes_what_none_owns(host: &Host, call: &Call)
    requires sound { IsSound host.now }
    requires allowed { IsAllowed host.now call.now }
    requires inside { is_from_outside call.now ≡ false }
    requires unshared { ensures_shared call.now ≡ false }
    ensures { KeepsUnowned host.now (apply host.now call.now).0 }
{}

/// A deletion removes objects of its attachment, and changes nothing else.
pub fn a_deletion_only_removes(host: &Host, call: &Call, att: &Att)
    requires sound { IsSound host.now }
    requires deletes { deletes_for call.now ≡ Some att.now }
    ensures { RemovesOwn att.now host.now (apply host.now call.now).0 }
{}

/// In a sound host each link, address, route and setting is in the host's own namespace or in one that is there.
pub fn every_object_is_in_its_place(host: &Host)
    requires { IsSound host.now }
    ensures { AreInPlaces host.now }
{}

/// In a sound host a route has the tag of the link that it is on. So has an address, or it is shared and on a bridge of
/// the host.
pub fn what_is_on_a_link_has_its_tag(host: &Host, link: &Link)
    requires sound { IsSound host.now }
    requires link { Contains host.now.links link.now }
    ensures { HasTagsOn link.now host.now }
{}

/// In a sound host no attachment owns a namespace.
pub fn no_namespace_is_owned(host: &Host)
    requires { IsSound host.now }
    ensures { NoNamespaceOwned host.now }
{}

/// In a sound host no network has an address leased twice.
pub fn no_address_is_leased_twice(host: &Host, network: &Text)
    requires { IsSound host.now }
    ensures { NoAddressTwice network.now host.now }
{}

/// In a sound host exactly the peer of a link goes with it.
pub fn only_the_peer_goes_with_a_link(host: &Host, link: &Link, other: &Link)
    requires sound { IsSound host.now }
    requires link { Contains host.now.links link.now }
    requires other { Contains host.now.links other.now }
    ensures { goes_with link.now.ns link.now.name other.now ≡ is_link_or_peer link.now other.now }
{}

/// In a sound host exactly the links in a namespace and their peers go with it.
pub fn only_its_links_and_their_peers_go_with_a_namespace(host: &Host, name: &Text, other: &Link)
    requires sound { IsSound host.now }
    requires other { Contains host.now.links other.now }
    ensures { goes_with_ns name.now other.now ≡ is_in_ns_or_peer name.now host.now.links other.now }
{}

/// The address that LeaseNext replies was free and is a candidate of its set, and it is then the last of its pool.
pub fn a_leased_address_was_free(
    host: &Host,
    att: &Att,
    number: u32,
    set: &RangeSet,
    address: &Addr,
)
    requires { (lease_next_of host.now att.now number set.now).1 ≡ Reply.Leased address.now }
    ensures candidate { is_candidate set.now address.now ≡ true }
    ensures free { is_taken (leased_addresses host.now att.now.network) address.now ≡ false }
    ensures last { last_leased (lease_next_of host.now att.now number set.now).0 att.now.network number
        ≡ Some address.now }
{}

/// The address that LeaseNext replies is the next after the pool's last one: every candidate on the way to it is
/// leased.
pub fn a_leased_address_is_the_next(
    host: &Host,
    att: &Att,
    number: u32,
    set: &RangeSet,
    address: &Addr,
)
    requires allowed { IsAllowed host.now (Call.LeaseNext att.now number set.now) }
    requires leased { (lease_next_of host.now att.now number set.now).1 ≡ Reply.Leased address.now }
    ensures { IsNextAddress set.now (last_leased host.now att.now.network number)
        (leased_addresses host.now att.now.network) address.now }
{}

/// Where LeaseNext replies that none is left, every candidate of the set is leased.
pub fn no_address_is_left_where_empty(host: &Host, att: &Att, number: u32, set: &RangeSet)
    requires { (lease_next_of host.now att.now number set.now).1 ≡ Reply.Empty }
    ensures { IsExhausted set.now (leased_addresses host.now att.now.network) }
{}

/// Objects are the same to their list just where their keys are equal.
pub fn keys_tell_objects_apart()
    ensures addresses { TellsKeys is_same_addr addr_key }
    ensures routes { TellsKeys is_same_route route_key }
    ensures settings { TellsKeys is_same_setting setting_key }
{}
