//! Hardware addresses of links.

ghost use Rattle.std.specs.Prelude.{◌≡◌};
ghost use Rattle.link_names.specs.Names.{host_mac_by, inner_mac_by, link_mac_of, local_mac};

use cni_addr::Mac;
use sha2::{Digest, Sha256};

/// The hardware address of the host's end of the veth pair of the attachment with this digest.
pub fn host_mac_by(digest: &[u8; 32]) -> Mac
    ensures { result ≡ host_mac_by digest.now }
{
    local_mac([digest[9], digest[10], digest[11], digest[12], digest[13]])
}

/// The hardware address of the container's end, and of a macvlan link.
pub fn inner_mac_by(digest: &[u8; 32]) -> Mac
    ensures { result ≡ inner_mac_by digest.now }
{
    local_mac([digest[4], digest[5], digest[6], digest[7], digest[8]])
}

/// The hardware address of a link of this name that no attachment owns.
#[tactic(auto, unfolding(crate::specs::Names::link_mac_of))]
pub fn link_mac(name: &str) -> Mac
    ensures { result ≡ link_mac_of name.now }
{
    let digest = Sha256::digest(name);
    local_mac([digest[0], digest[1], digest[2], digest[3], digest[4]])
}

/// The locally administered address (IEEE 802) with these five bytes behind the first.
fn local_mac(bytes: [u8; 5]) -> Mac
    ensures { result ≡ local_mac bytes }
{
    let [a, b, c, d, e] = bytes;
    Mac {
        bytes: [10, a, b, c, d, e],
    }
}
