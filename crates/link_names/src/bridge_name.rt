//! A bridge's name with what is derived from it.

ghost use Rattle.std.specs.Prelude.{◌≡◌};
ghost use Rattle.link_names.specs.Names.{link_mac_of};

use crate::mac::link_mac;
use cni_addr::{Mac, Text};
use std::marker::Model;

/// A bridge's name with its hardware address, which is made once. Contracts see it as the name.
#[derive(Drop)]
pub struct BridgeName {
    name: Text,
    mac: Mac,
}

impl Model for BridgeName {
    ghost use Rattle.std.specs.Prelude.{ℕ, List, ◌≡◌};
    ghost use Rattle.link_names.specs.Names.{link_mac_of};

    ghost Value = { List ℕ };

    ghost view = { λ b. b.name };

    ghost invariant = { λ b. b.mac ≡ link_mac_of b.name };
}

impl BridgeName {
    /// The name with its hardware address. Takes no memory.
    pub fn of(name: Text) -> BridgeName
        ensures { result ≡ name }
    {
        let mac = link_mac(name.as_str());
        BridgeName { name, mac }
    }

    /// The name alone.
    pub fn name(&self) -> &Text
        ensures { result.now ≡ self.now }
    {
        &self.name
    }

    /// As [`link_mac`] of the name.
    pub fn mac(&self) -> Mac
        ensures { result ≡ link_mac_of self.now }
    {
        self.mac
    }
}

impl PartialEq for BridgeName {
    ghost use Rattle.std.specs.Str.{bytes_eq};
    ghost use Rattle.std.specs.Cmp.{partial_equiv_from_equiv};
    ghost use Rattle.std.specs.Cmp.Lexicographic.{nat_list_eq_equiv};

    ghost eq = { bytes_eq };

    ghost laws = { partial_equiv_from_equiv nat_list_eq_equiv };

    fn eq(&self, other: &BridgeName) -> bool {
        self.name == other.name
    }
}

impl Eq for BridgeName {
    ghost use Rattle.std.specs.Cmp.Lexicographic.{nat_list_eq_equiv};

    ghost laws = { nat_list_eq_equiv };
}
