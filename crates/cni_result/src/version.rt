//! Versions of the specification, by their texts, and what a result tells by its version.

ghost use Rattle.std.specs.Prelude.{◌≡◌, Some, option_map};
ghost use Rattle.cni_result.specs.Versions.{version_text, version_named, is_before_1_0, is_before_1_1, ip_version};
ghost use Rattle.cni_result.specs.Versions.{ip_version_before_1_0, mtu_since_1_1};

use cni_addr::Family;

/// A version of the CNI specification that a network list may have (`cniVersion`).
#[derive(Clone, Copy, Debug, PartialEq, Eq)]
pub enum Version {
    V0_4,
    V1_0,
    V1_1,
}

impl Version {
    /// Every version once, the oldest first.
    pub const ALL: [Version; 3] = [Version::V0_4, Version::V1_0, Version::V1_1];

    /// Whether the version came before 1.1.0, with which came GC, STATUS and the MTU of a result's interfaces.
    pub fn is_before_1_1(self) -> bool
        ensures { result ≡ is_before_1_1 self }
    {
        match self {
            Version::V0_4 | Version::V1_0 => true,
            Version::V1_1 => false,
        }
    }

    /// Whether the version came before 1.0.0, with which results lost the IP version of each address.
    fn is_before_1_0(self) -> bool
        ensures { result ≡ is_before_1_0 self }
    {
        match self {
            Version::V0_4 => true,
            Version::V1_0 | Version::V1_1 => false,
        }
    }
}

/// The version as `cniVersion` names it. Takes no memory.
pub fn version_text(version: Version) -> &'static str
    ensures text { result.now ≡ version_text version }
    ensures named_again { version_named (version_text version) ≡ Some version }
{
    match version {
        Version::V0_4 => "0.4.0",
        Version::V1_0 => "1.0.0",
        Version::V1_1 => "1.1.0",
    }
}

/// The version that a text names as `cniVersion`. Takes no memory.
pub fn version_named(text: &str) -> Option<Version>
    ensures { result ≡ version_named text.now }
{
    Version::ALL
        .iter()
        .copied()
        .find(|version| text == version_text(*version))
}

/// The MTU of an interface, in bytes, which a result tells since version 1.1.0 (CNI specification, section 5).
pub fn mtu_since_1_1(version: Version, mtu: Option<u32>) -> Option<u32>
    ensures { result ≡ mtu_since_1_1 version mtu }
{
    if version.is_before_1_1() { None } else { mtu }
}

/// The IP version of an address, which a result tells before version 1.0.0 (CNI specification 0.4.0, "Result", `ips`).
pub(crate) fn ip_version_before_1_0(version: Version, family: Family) -> Option<&'static str>
    ensures { option_map (λ text. text.now) result ≡ ip_version_before_1_0 version family }
{
    version.is_before_1_0().then_some(ip_version(family))
}

fn ip_version(family: Family) -> &'static str
    ensures { result.now ≡ ip_version family }
{
    match family {
        Family::V4 => "4",
        Family::V6 => "6",
    }
}
