//! Laws of packets, each carried by a function that does nothing.

ghost use Rattle.packet_laws.specs.Complete.{CheckedHostsAreComplete};
ghost use Rattle.packet_laws.specs.Packets.{EveryPacketGoesAsCached};

use host_local::laws::candidates_are_given;
use pod_laws::every_legal_history_is_guaranteed;

/// In a complete host of a legal history each packet goes as the cached results say.
///
/// A packet of a new connection is rewritten exactly where some attachment publishes its port, by the one whose rule
/// stands first: to that attachment's first address of the packet's family, and to the container's port. Where exactly
/// one attachment leases its source, and no rule of a published port masquerades it at the destination that it then
/// has, it is masqueraded exactly where the list of that attachment has `ipMasq` and the destination is neither in the
/// subnet of the leased address nor a multicast address. And a packet is let through exactly where an attachment whose
/// list has `firewall` has its source as an address, or, where its connection stands, its destination.
pub fn every_packet_goes_as_cached()
    ensures { EveryPacketGoesAsCached }
{
    every_legal_history_is_guaranteed();
    candidates_are_given();
}

/// A host is complete where no attachment is half-made, and where a CHECK of each cached result finds all that it asks
/// for.
pub fn checked_hosts_are_complete()
    ensures { CheckedHostsAreComplete }
{}
