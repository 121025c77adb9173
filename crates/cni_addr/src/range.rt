//! Ranges of addresses, as the `host-local` plugin is configured with them.

use crate::address::{Addr, Cidr};
use crate::items::Items;
use crate::memory::{Duplicate, NoMemory};
use std::marker::Model;

/// The addresses from `start` to `end`, both taken in, without the gateway (`host-local`: `rangeStart`, `rangeEnd`,
/// `gateway`, `subnet`). All four have one family.
#[derive(Clone, Copy, Debug, PartialEq, Eq)]
pub struct Range {
    pub subnet: Cidr,
    pub start: Addr,
    pub end: Addr,
    pub gateway: Addr,
}

impl Model for Range {
    ghost use Rattle.cni_addr.specs.Value.{RangeValue, IsOneFamily};

    ghost Value = { RangeValue };

    ghost view = { λ r. record { subnet = r.subnet; start = r.start; end = r.end; gateway = r.gateway } };

    ghost invariant = { λ r. IsOneFamily r.subnet r.start r.end r.gateway };

    ghost inverse = { λ v. record { subnet = v.subnet; start = v.start; end = v.end; gateway = v.gateway } };
}

impl Duplicate for Range {
    fn copy(&self) -> Result<Range, NoMemory> {
        Ok(*self)
    }
}

/// Ranges of which an attachment gets one address (an element of `ranges` of `host-local`).
#[derive(PartialEq, Eq, Drop)]
pub struct RangeSet {
    pub ranges: Items<Range>,
}

impl Duplicate for RangeSet {
    fn copy(&self) -> Result<RangeSet, NoMemory> {
        Ok(RangeSet {
            ranges: self.ranges.copy()?,
        })
    }
}
