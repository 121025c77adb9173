//! Laws of the definitions that the calls of this crate are equal to. Each function does nothing: what it ensures is
//! the law, and a proof above this crate gets it by calling the function, or by the lemma that its answer names.

ghost use Rattle.std.specs.Prelude.{◌≡◌, ◌↔◌, ◌+◌, ◌%◌, ◌≤◌, ℕ, Bool, List, Some, None, true};
ghost use Rattle.std.specs.Cmp.{IsPartialEquivalence};
ghost use Rattle.cni_addr.specs.Value.{AddrValue, CidrValue, IsAddr, bits_below};
ghost use Rattle.std.specs.Int.{w128, to_be_bytes};
ghost use Rattle.std.specs.Net.Addr.{segments_of};
ghost use Rattle.cni_addr.specs.declared.address.Family.TheVariants.{V6};
ghost use Rattle.cni_addr.specs.AddrText.{IsAddrText, addr_of_text, addr_text, bits_text};
ghost use Rattle.cni_addr.specs.GroupText.{IsRecommended};
ghost use Rattle.cni_addr.specs.Lists.{each_key_once};
ghost use Rattle.cni_addr.specs.KeyLaws.{HasFirstOfEachKey};
ghost use Rattle.cni_addr.specs.CidrText.{IsCidrText, cidr_of_text, cidr_text};
ghost use Rattle.cni_addr.specs.MacText.{IsMac, IsMacText, mac_of_text, mac_text};
ghost use Rattle.cni_addr.specs.Network.{IsCidr, contains, last_of, network_of, network_size, next_addr, whole};
ghost use Rattle.cni_addr.specs.Spelling.{IsSpelling};

/// The text of an address is a spelling: what is read is its grammar, and what is written is read again.
pub fn addr_text_laws()
    ensures { IsSpelling IsAddrText IsAddr addr_of_text addr_text }
{}

/// An IPv6 address is written as RFC 5952, section 4, recommends: in lower case, without leading zeros, and with `::`
/// for the longest run of two or more groups of zeros, of equal ones the first.
pub fn group_text_laws()
    ensures { (bits : ℕ) → IsRecommended (bits_text V6 bits) (segments_of (to_be_bytes w128 bits)) }
{}

/// The text of a network is a spelling too. What is read is a network that a [`Cidr`](crate::Cidr) can be.
pub fn cidr_text_laws()
    ensures spelling { IsSpelling IsCidrText IsCidr cidr_of_text cidr_text }
    ensures kept { (text : List ℕ) (c : CidrValue) → IsCidrText text c → IsCidr c }
{}

/// The same of a hardware address's text, which may have digits of either case, and is written in lower case.
pub fn mac_text_laws()
    ensures { IsSpelling IsMacText IsMac mac_of_text mac_text }
{}

/// A network has just the addresses of its family from its first to its last, these two among them. Its first has no
/// host bits, and the network of a network is that network.
pub fn network_laws()
    ensures between { (c : CidrValue) (a : AddrValue) → (contains c a ≡ true)
        ↔ ((c.addr.family ≡ a.family) × ((network_of c).addr.bits ≤ a.bits) × (a.bits ≤ (last_of c).bits)) }
    ensures own { (c : CidrValue) → contains c c.addr ≡ true }
    ensures first { (c : CidrValue) → contains c (network_of c).addr ≡ true }
    ensures last { (c : CidrValue) → contains c (last_of c) ≡ true }
    ensures cleared { (c : CidrValue) → (network_of c).addr.bits % network_size c ≡ 0 }
    ensures again { (c : CidrValue) → network_of (network_of c) ≡ network_of c }
    ensures same_addresses { (c : CidrValue) (a : AddrValue) → contains (network_of c) a ≡ contains c a }
    ensures same_last { (c : CidrValue) → last_of (network_of c) ≡ last_of c }
    ensures kept { (c : CidrValue) → IsCidr c → IsCidr (network_of c) × IsAddr (last_of c) }
{}

/// The full prefix is the network of one address: it has that address and no other, first and last.
pub fn whole_laws()
    ensures only { (a b : AddrValue) → (contains (whole a) b ≡ true) ↔ (a ≡ b) }
    ensures network { (a : AddrValue) → network_of (whole a) ≡ whole a }
    ensures last { (a : AddrValue) → last_of (whole a) ≡ a }
    ensures kept { (a : AddrValue) → IsAddr a → IsCidr (whole a) }
{}

/// The next address is one higher, of the same family; there is none just at the family's last address.
pub fn next_addr_laws()
    ensures none { (a : AddrValue) → (next_addr a ≡ None) ↔ (a.bits + 1 ≡ bits_below a.family) }
    ensures higher { (a b : AddrValue) → IsAddr a → next_addr a ≡ Some b
        → IsAddr b × (b.family ≡ a.family) × (b.bits ≡ a.bits + 1) }
{}

/// A list in which each key stands once has the first element of each key, in the list's order. Two elements have one
/// key where the test says so, whatever it compares.
pub fn each_key_once_laws<T>()
    ensures { (same : T → T → Bool) → IsPartialEquivalence same → HasFirstOfEachKey same (each_key_once same) }
{}
