//! The packet rules of the modelled kernel: the tables of `iptables` and `ip6tables` as one, and the plugins' chains by
//! their purpose.

use crate::object::Tag;
use cni_addr::{Addr, Cidr, Duplicate, NoMemory};
use cni_result::Proto;
use std::cmp::Ordering;

/// A table of packet rules.
#[derive(Clone, Copy, Hash)]
pub enum Table {
    /// Address translation.
    Nat,
    /// Filtering.
    Filter,
}

impl PartialEq for Table {
    ghost use Rattle.std.specs.Cmp.{partial_equiv_from_equiv, on_equiv, nat_eq_equiv};
    ghost use Rattle.kernel_types.specs.Codes.{table_eq, table_code};

    ghost eq = { table_eq };

    ghost laws = { partial_equiv_from_equiv (on_equiv table_code nat_eq_equiv) };

    fn eq(&self, other: &Table) -> bool {
        *self as u8 == *other as u8
    }
}

impl Eq for Table {
    ghost use Rattle.std.specs.Cmp.{on_equiv, nat_eq_equiv};
    ghost use Rattle.kernel_types.specs.Codes.{table_code};

    ghost laws = { on_equiv table_code nat_eq_equiv };
}

impl PartialOrd for Table {
    ghost use Rattle.std.specs.Ordering.{as_partial_cmp, nat_cmp, on};
    ghost use Rattle.std.specs.Cmp.{nat_cmp_total, on_total, po, unsigned_ties};
    ghost use Rattle.kernel_types.specs.Codes.{table_code};

    ghost partial_cmp = { as_partial_cmp (on table_code nat_cmp) };

    ghost laws = { po (on_total table_code nat_cmp_total) (λ x y. unsigned_ties (table_code x) (table_code y)) };

    fn partial_cmp(&self, other: &Table) -> Option<Ordering> {
        Some(self.cmp(other))
    }
}

impl Ord for Table {
    ghost use Rattle.std.specs.Prelude.{refl};
    ghost use Rattle.std.specs.Ordering.{nat_cmp, on};
    ghost use Rattle.std.specs.Cmp.{nat_cmp_total, on_total, unsigned_ties};
    ghost use Rattle.kernel_types.specs.Codes.{table_code};

    ghost cmp = { on table_code nat_cmp };

    ghost total = { on_total table_code nat_cmp_total };

    ghost matches_partial_cmp = { λ x y. refl };

    ghost matches_eq = { λ x y. unsigned_ties (table_code x) (table_code y) };

    fn cmp(&self, other: &Table) -> Ordering {
        (*self as u8).cmp(&(*other as u8))
    }
}

/// A chain of packet rules of both families. The plugins' chains of one purpose are one here.
#[derive(Clone, Copy, Hash)]
pub enum Chain {
    /// Where a packet for a mapped port of the host gets the container's address of its family.
    Dnat,
    /// Where a packet from a container to a mapped port gets the host's address; of IPv4 also one from the host itself.
    HostMasq,
    /// Where a packet that leaves a container's network gets the host's address.
    Masq,
    /// Where a packet that is forwarded is accepted.
    Forward,
}

impl PartialEq for Chain {
    ghost use Rattle.std.specs.Cmp.{partial_equiv_from_equiv, on_equiv, nat_eq_equiv};
    ghost use Rattle.kernel_types.specs.Codes.{chain_eq, chain_code};

    ghost eq = { chain_eq };

    ghost laws = { partial_equiv_from_equiv (on_equiv chain_code nat_eq_equiv) };

    fn eq(&self, other: &Chain) -> bool {
        *self as u8 == *other as u8
    }
}

impl Eq for Chain {
    ghost use Rattle.std.specs.Cmp.{on_equiv, nat_eq_equiv};
    ghost use Rattle.kernel_types.specs.Codes.{chain_code};

    ghost laws = { on_equiv chain_code nat_eq_equiv };
}

impl PartialOrd for Chain {
    ghost use Rattle.std.specs.Ordering.{as_partial_cmp, nat_cmp, on};
    ghost use Rattle.std.specs.Cmp.{nat_cmp_total, on_total, po, unsigned_ties};
    ghost use Rattle.kernel_types.specs.Codes.{chain_code};

    ghost partial_cmp = { as_partial_cmp (on chain_code nat_cmp) };

    ghost laws = { po (on_total chain_code nat_cmp_total) (λ x y. unsigned_ties (chain_code x) (chain_code y)) };

    fn partial_cmp(&self, other: &Chain) -> Option<Ordering> {
        Some(self.cmp(other))
    }
}

impl Ord for Chain {
    ghost use Rattle.std.specs.Prelude.{refl};
    ghost use Rattle.std.specs.Ordering.{nat_cmp, on};
    ghost use Rattle.std.specs.Cmp.{nat_cmp_total, on_total, unsigned_ties};
    ghost use Rattle.kernel_types.specs.Codes.{chain_code};

    ghost cmp = { on chain_code nat_cmp };

    ghost total = { on_total chain_code nat_cmp_total };

    ghost matches_partial_cmp = { λ x y. refl };

    ghost matches_eq = { λ x y. unsigned_ties (chain_code x) (chain_code y) };

    fn cmp(&self, other: &Chain) -> Ordering {
        (*self as u8).cmp(&(*other as u8))
    }
}

/// What becomes of a packet that a rule fits.
#[derive(Clone, Copy, PartialEq, Eq, PartialOrd, Ord, Hash)]
pub enum Target {
    /// It passes.
    Accept,
    /// Its source becomes the address of the link that it leaves by.
    Masquerade,
    /// Its destination becomes this address and port.
    Dnat { addr: Addr, port: u16 },
}

/// A rule of a chain. It is of one family: that of its networks, and without these that of the address in its target.
#[derive(PartialEq, Eq, PartialOrd, Ord, Hash, Drop)]
pub struct Rule {
    pub table: Table,
    pub chain: Chain,
    /// Fits packets from this network; absent, from any of the rule's family.
    pub src: Option<Cidr>,
    /// Fits packets to this network, or to none of it where `not_dst` stands; absent, to any of the rule's family.
    pub dst: Option<Cidr>,
    pub not_dst: bool,
    /// Fits packets of this protocol; absent, of any.
    pub protocol: Option<Proto>,
    /// Fits packets to this port; absent, to any.
    pub dport: Option<u16>,
    /// Fits only packets of connections that stand already, or that belong to one.
    pub established: bool,
    pub target: Target,
    pub tag: Tag,
}

impl Duplicate for Rule {
    fn copy(&self) -> Result<Rule, NoMemory> {
        Ok(Rule {
            table: self.table,
            chain: self.chain,
            src: self.src,
            dst: self.dst,
            not_dst: self.not_dst,
            protocol: self.protocol,
            dport: self.dport,
            established: self.established,
            target: self.target,
            tag: self.tag.copy()?,
        })
    }
}
