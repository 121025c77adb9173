//! Each call on its happy path and on each refusal, one after another on one host, which begins with the device `ens1`
//! alone. A container stands for its attachment to the network `pods` by `eth0`. Replies are as they are printed: of
//! owners their number, of a cached result whether there is one.

/// A line is a call, an arrow and the reply, or begins with `#` and says what the rows below it are of.
pub(crate) const ROWS: &str = "\
# The namespace of the attachments.
NsAdd /ns/a => Done
# Before an attachment.
Begin c1 /ns/x => NoNs
Begin c1 /ns/a => Done
Begin c1 host => Done
# What attachments share.
BridgeEnsure ens1 => Taken outside
BridgeEnsure cni0 => Done
BridgeEnsure cni0 => Done
GatewayEnsure ens1 => NoLink
GatewayEnsure cni0 => Done
GatewayEnsure cni0 => Done
ForwardEnsure IPv4 => Done
ForwardEnsure IPv4 => Done
ForwardEnsure IPv6 => Done
# A veth pair: container, inner place, the host's end and its master.
VethAdd c1 /ns/x eth0 veth1 cni0 => NoNs
VethAdd c1 /ns/a eth0 veth1 ens1 => NoLink
VethAdd c1 /ns/a eth0 veth1 cni0 => Done
VethAdd c2 /ns/a eth0 veth2 cni0 => Taken pods/c1/eth0
VethAdd c2 /ns/a eth1 veth1 cni0 => Taken pods/c1/eth0
VethAdd c2 /ns/a eth1 cni0 cni0 => Taken base
BridgeEnsure veth1 => Taken pods/c1/eth0
Begin c1 /ns/a => Taken pods/c1/eth0
# A macvlan link: container, place, master.
MacvlanAdd c2 /ns/x eth1 ens1 => NoNs
MacvlanAdd c2 /ns/a eth1 ens9 => NoLink
MacvlanAdd c2 /ns/a eth1 veth1 => NoLink
MacvlanAdd c2 /ns/a eth0 ens1 => Taken pods/c1/eth0
MacvlanAdd c2 /ns/a eth1 ens1 => Done
HasLink c2 /ns/a eth1 ens1 => Has true
# A VLAN link, added by MacvlanAdd too: container, place, master, number. One master carries a number twice.
VlanAdd c3 /ns/x eth2 ens1 100 => NoNs
VlanAdd c3 /ns/a eth2 ens9 100 => NoLink
VlanAdd c3 /ns/a eth2 veth1 100 => NoLink
VlanAdd c3 /ns/a eth0 ens1 100 => Taken pods/c1/eth0
VlanAdd c3 /ns/a eth2 ens1 100 => Done
VlanAdd c3 /ns/a eth3 ens1 100 => Done
HasVlan c3 /ns/a eth2 ens1 100 => Has true
HasVlan c3 /ns/a eth2 ens1 101 => Has false
# A dummy link, added so too, has no master: container, place.
DummyAdd c3 /ns/x eth4 => NoNs
DummyAdd c3 /ns/a eth2 => Taken pods/c3/eth0
DummyAdd c3 /ns/a eth4 => Done
HasDummy c3 /ns/a eth4 => Has true
HasDummy c3 /ns/a eth2 => Has false
LinkDel c3 => Gone true
LinkDel c3 => Gone true
LinkDel c3 => Gone true
LinkDel c3 => Gone false
# Values of a link that is there.
LinkSet c2 /ns/a eth9 => NoLink
LinkSet c1 /ns/a eth1 => NoLink
LinkSet c2 /ns/a eth1 => Done
HasLink c2 /ns/a eth1 ens1 => Has false
# Addresses and routes: container, place, address or destination.
AddrAdd c1 /ns/a eth9 10.88.0.2/16 => NoLink
AddrAdd c1 /ns/a eth1 10.88.0.2/16 => NoLink
AddrAdd c1 /ns/a eth0 10.88.0.2/16 => Done
AddrAdd c1 /ns/a eth0 10.88.0.2/24 => Taken pods/c1/eth0
HasAddress c1 /ns/a eth0 10.88.0.2/16 => Has true
HasAddress c1 /ns/a eth0 10.88.0.2/24 => Has false
AddrAdd c1 /ns/a eth0 fd00:88::2/64 => Done
AddrAdd c1 /ns/a eth0 fd00:88::2/48 => Taken pods/c1/eth0
HasAddress c1 /ns/a eth0 fd00:88::2/64 => Has true
RouteAdd c1 /ns/a eth1 0.0.0.0/0 => NoLink
RouteAdd c1 /ns/a eth0 0.0.0.0/0 => Done
RouteAdd c1 /ns/a eth0 0.0.0.0/0 => Taken pods/c1/eth0
RouteAdd c1 /ns/a eth0 ::/0 => Done
RouteAdd c1 /ns/a eth0 ::/0 => Taken pods/c1/eth0
RouteAdd c2 /ns/a eth1 0.0.0.0/0 => Done
HasRoute c1 /ns/a eth0 0.0.0.0/0 => Has true
HasRoute c1 /ns/a eth0 ::/0 => Has true
# Rules by port, settings by namespace and value.
RuleAppend c1 80 => Done
RuleAppend c1 80 => Taken pods/c1/eth0
RuleAppend c2 80 => Done
HasRule c2 80 => Has true
HasRule c2 81 => Has false
SettingSet c1 /ns/x 128 => NoNs
SettingSet c1 /ns/a 128 => Done
SettingSet c2 /ns/a 256 => Taken pods/c1/eth0
HasSetting c1 /ns/a 128 => Has true
HasSetting c1 /ns/a 256 => Has false
# Leases of 10.88.0.0/16, of 10.3.0.0/30 and of the last four addresses of IPv6, without their gateways.
LeaseNext c1 wide => Leased 10.88.0.2
LeaseNext c2 wide => Leased 10.88.0.3
LeaseDel c1 => Gone true
LeaseNext c1 wide => Leased 10.88.0.4
PoolFree tiny => Has true
LeaseNext c1 tiny => Leased 10.3.0.2
PoolFree tiny => Has false
LeaseNext c2 tiny => Empty
PoolFree wide => Has true
LeaseNext c1 top => Leased ffff:ffff:ffff:ffff:ffff:ffff:ffff:fffe
LeaseNext c2 top => Empty
PoolFree top => Has false
HasLease c1 10.3.0.2 => Has true
HasLease c1 ffff:ffff:ffff:ffff:ffff:ffff:ffff:fffe => Has true
HasLease c2 10.3.0.2 => Has false
# Cached results.
CachePut c1 => Done
CachePut c1 => Taken pods/c1/eth0
CacheGet c1 => Entry some
CacheGet c2 => Entry none
# Bridges by name and by whose hardware address, masters, and owners.
BridgeAt cni0 cni0 => Has true
BridgeAt cni0 cni1 => Has false
BridgeAt ens1 ens1 => Has false
Master ens1 => Has true
Master veth1 => Has false
Master ens9 => Has false
OwnersOf pods links => Owners 2
OwnersOf pods rules => Owners 2
OwnersOf pods settings => Owners 1
OwnersOf pods leases => Owners 2
OwnersOf pods cached => Owners 1
OwnersOf jobs links => Owners 0
# Deletions.
CacheDel c2 => Gone false
CacheDel c1 => Gone true
LeaseDel c1 => Gone true
LeaseDel c1 => Gone true
LeaseDel c1 => Gone true
LeaseDel c1 => Gone false
SettingDel c2 => Gone false
SettingDel c1 => Gone true
RuleDel c1 => Gone true
RuleDel c1 => Gone false
LinkDel c3 => Gone false
LinkDel c1 => Gone true
LinkDel c1 => Gone false
HasAddress c1 /ns/a eth0 10.88.0.2/16 => Has false
HasAddress c1 /ns/a eth0 fd00:88::2/64 => Has false
HasRoute c1 /ns/a eth0 0.0.0.0/0 => Has false
HasRoute c1 /ns/a eth0 ::/0 => Has false
Begin c1 /ns/a => Done
# Changes from outside.
Flush filter => Done
HasRule c2 80 => Has true
Flush nat => Done
HasRule c2 80 => Has false
DropLink /ns/x eth1 => NoNs
DropLink /ns/a eth1 => Gone true
DropLink /ns/a eth1 => Gone false
HasRoute c2 /ns/a eth1 0.0.0.0/0 => Has false
NsAdd /ns/a => Taken outside
NsAdd /ns/b => Done
VethAdd c1 /ns/b eth0 veth1 cni0 => Done
NsDel /ns/x => NoNs
NsDel /ns/b => Done
NsDel /ns/b => NoNs
OwnersOf pods links => Owners 0
";
