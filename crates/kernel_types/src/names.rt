//! The digest of an attachment, and the names and hardware addresses by it.
//!
//! Two attachments may derive one name of the host's end; the later ADD is then refused, as the name is taken.

ghost use Rattle.std.specs.Prelude.{◌≡◌, IfOk};
ghost use Rattle.kernel_types.specs.Names.{digest_of, host_name_of};

use crate::object::Att;
use cni_addr::{Duplicate, Mac, NoMemory, Text};
use link_names::{host_mac_by, host_name_by, host_name_text, inner_mac_by};
use sha2::{Digest, Sha256};
use std::alloc::Global;
use std::marker::Model;

/// The digest of an attachment by its three names, joined by line feeds. Takes no memory.
#[tactic(auto, unfolding(crate::specs::Names::digest_of))]
pub fn digest_of(network: &str, container: &str, ifname: &str) -> [u8; 32]
    ensures { result ≡ digest_of (record { network = network.now; container = container.now; ifname = ifname.now }) }
{
    let mut hasher = Sha256::new();
    hasher.update(network);
    hasher.update(b"\n");
    hasher.update(container);
    hasher.update(b"\n");
    hasher.update(ifname);
    hasher.finalize()
}

/// The name of the host's end of a veth pair, by the three names of its attachment: twelve bytes, so within the
/// kernel's fifteen. Takes no memory.
pub fn host_name_bytes(network: &str, container: &str, ifname: &str) -> [u8; 12]
    ensures { result ≡ host_name_of (record { network = network.now; container = container.now; ifname = ifname.now }) }
{
    let digest = digest_of(network, container, ifname);
    host_name_by(&digest)
}

impl Att {
    ghost use Rattle.kernel_types.specs.Names.{digest_of, host_name_of, host_mac_of, inner_mac_of};

    /// The digest of the attachment: of its network, container and interface name.
    pub fn digest(&self) -> [u8; 32]
        ensures { result ≡ digest_of self.now }
    {
        digest_of(
            self.network.as_str(),
            self.container.as_str(),
            self.ifname.as_str(),
        )
    }

    /// The name of the host's end of the attachment's veth pair, as by [`host_name_bytes`].
    pub fn host_name(&self, alloc: Global) -> Result<Text, NoMemory>
        ensures { IfOk result (λ name. name ≡ host_name_of self.now) }
    {
        host_name_text(alloc, &self.digest())
    }

    /// The hardware address of the host's end.
    pub fn host_mac(&self) -> Mac
        ensures { result ≡ host_mac_of self.now }
    {
        host_mac_by(&self.digest())
    }

    /// The hardware address of the container's end, and of a macvlan link.
    pub fn inner_mac(&self) -> Mac
        ensures { result ≡ inner_mac_of self.now }
    {
        inner_mac_by(&self.digest())
    }
}

/// An attachment with what is derived from its digest, which is made once for all of it. Contracts see it as the
/// attachment.
#[derive(Drop)]
pub struct NamedAtt {
    att: Att,
    host_name: Text,
    host_mac: Mac,
    inner_mac: Mac,
}

impl Model for NamedAtt {
    ghost use Rattle.std.specs.Prelude.{◌≡◌};
    ghost use Rattle.kernel_types.specs.Names.{host_name_of, host_mac_of, inner_mac_of};
    ghost use Rattle.kernel_types.specs.declared.object.Att.{Att};

    ghost Value = { Att };

    ghost view = { λ n. n.att };

    ghost invariant = { λ n. (n.host_name ≡ host_name_of n.att)
        × (n.host_mac ≡ host_mac_of n.att)
        × (n.inner_mac ≡ inner_mac_of n.att) };
}

impl NamedAtt {
    ghost use Rattle.kernel_types.specs.Names.{host_name_of, host_mac_of, inner_mac_of};

    /// The attachment with its names.
    pub fn of(alloc: Global, att: Att) -> Result<NamedAtt, NoMemory>
        ensures { IfOk result (λ named. named ≡ att) }
    {
        let digest = att.digest();
        let host_name = host_name_text(alloc, &digest)?;
        Ok(NamedAtt {
            att,
            host_name,
            host_mac: host_mac_by(&digest),
            inner_mac: inner_mac_by(&digest),
        })
    }

    /// The attachment alone.
    pub fn att(&self) -> &Att
        ensures { result.now ≡ self.now }
    {
        &self.att
    }

    /// As [`Att::host_name`]. The text is shared.
    pub fn host_name(&self) -> Result<Text, NoMemory>
        ensures { IfOk result (λ name. name ≡ host_name_of self.now) }
    {
        self.host_name.copy()
    }

    /// As [`Att::host_mac`].
    pub fn host_mac(&self) -> Mac
        ensures { result ≡ host_mac_of self.now }
    {
        self.host_mac
    }

    /// As [`Att::inner_mac`].
    pub fn inner_mac(&self) -> Mac
        ensures { result ≡ inner_mac_of self.now }
    {
        self.inner_mac
    }
}
