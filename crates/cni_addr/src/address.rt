//! Network addresses as numbers.

use std::cmp::Ordering;
use std::hash::{Hash, Hasher};
use std::marker::Model;

/// The family of an address: RFC 791 or RFC 4291.
#[derive(Clone, Copy, Debug, Hash)]
pub enum Family {
    V4,
    V6,
}

impl PartialEq for Family {
    ghost use Rattle.std.specs.Cmp.{partial_equiv_from_equiv, on_equiv, nat_eq_equiv};
    ghost use Rattle.cni_addr.specs.Codes.{family_eq, family_code};

    ghost eq = { family_eq };

    ghost laws = { partial_equiv_from_equiv (on_equiv family_code nat_eq_equiv) };

    fn eq(&self, other: &Family) -> bool {
        *self as u8 == *other as u8
    }
}

impl Eq for Family {
    ghost use Rattle.std.specs.Cmp.{on_equiv, nat_eq_equiv};
    ghost use Rattle.cni_addr.specs.Codes.{family_code};

    ghost laws = { on_equiv family_code nat_eq_equiv };
}

impl PartialOrd for Family {
    ghost use Rattle.std.specs.Ordering.{as_partial_cmp, nat_cmp, on};
    ghost use Rattle.std.specs.Cmp.{nat_cmp_total, on_total, po, unsigned_ties};
    ghost use Rattle.cni_addr.specs.Codes.{family_code};

    ghost partial_cmp = { as_partial_cmp (on family_code nat_cmp) };

    ghost laws = { po (on_total family_code nat_cmp_total) (λ x y. unsigned_ties (family_code x) (family_code y)) };

    fn partial_cmp(&self, other: &Family) -> Option<Ordering> {
        Some(self.cmp(other))
    }
}

impl Ord for Family {
    ghost use Rattle.std.specs.Prelude.{refl};
    ghost use Rattle.std.specs.Ordering.{nat_cmp, on};
    ghost use Rattle.std.specs.Cmp.{nat_cmp_total, on_total, unsigned_ties};
    ghost use Rattle.cni_addr.specs.Codes.{family_code};

    ghost cmp = { on family_code nat_cmp };

    ghost total = { on_total family_code nat_cmp_total };

    ghost matches_partial_cmp = { λ x y. refl };

    ghost matches_eq = { λ x y. unsigned_ties (family_code x) (family_code y) };

    fn cmp(&self, other: &Family) -> Ordering {
        (*self as u8).cmp(&(*other as u8))
    }
}

/// An address as a number, its first byte the highest. It fits its family: the invariant says so.
#[derive(Clone, Copy, Debug, PartialEq, Eq, PartialOrd, Ord)]
pub struct Addr {
    pub family: Family,
    pub bits: u128,
}

impl Model for Addr {
    ghost use Rattle.cni_addr.specs.Value.{AddrValue, IsAddr};

    ghost Value = { AddrValue };

    ghost view = { λ a. record { family = a.family; bits = a.bits } };

    ghost invariant = { λ a. IsAddr (record { family = a.family; bits = a.bits }) };

    ghost inverse = { λ v. record { family = v.family; bits = v.bits } };
}

impl Hash for Addr {
    ghost use Rattle.cni_addr.specs.AddrLaws.{addr_writes, addr_writes-respect_eq};

    ghost hash_input = { addr_writes };

    ghost respects_eq = { addr_writes-respect_eq };

    // Most addresses are of IPv4, and so are one word: their number behind a mark that no other address begins with.
    fn hash<H: Hasher>(&self, state: &mut H) {
        match self.family {
            Family::V4 => state.write_u64((1 << 32) + self.bits as u64),
            Family::V6 => {
                state.write_u64(6);
                state.write_u128(self.bits);
            }
        }
    }
}

/// An address with the length of its network's prefix (RFC 4632). Host bits are kept.
#[derive(Clone, Copy, Debug, PartialEq, Eq, PartialOrd, Ord, Hash)]
pub struct Cidr {
    pub addr: Addr,
    pub prefix: u8,
}

impl Model for Cidr {
    ghost use Rattle.std.specs.Prelude.{◌≤◌};
    ghost use Rattle.cni_addr.specs.Value.{CidrValue, longest_prefix};

    ghost Value = { CidrValue };

    ghost view = { λ c. record { addr = c.addr; prefix = c.prefix } };

    ghost invariant = { λ c. c.prefix ≤ longest_prefix c.addr.family };

    ghost inverse = { λ v. record { addr = v.addr; prefix = v.prefix } };
}
