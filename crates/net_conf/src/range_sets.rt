//! The range sets of a configuration.

ghost use Rattle.std.specs.Prelude.{◌≡◌, ◌≤◌, IsTrue, length};
ghost use Rattle.ip_pool.specs.Pool.{are_apart};
ghost use Rattle.net_conf.specs.Sets.{most_sets, ranges_of};

use cni_addr::{Items, RangeSet, RefCounted};
use std::marker::Model;

/// The most sets that a configuration has.
pub const MOST_SETS: usize = 65_536;

/// Range sets, at most [`MOST_SETS`], of which no two ranges share an address. A call on a set shares it.
#[derive(PartialEq, Eq, Drop)]
pub struct RangeSets {
    sets: Items<RefCounted<RangeSet>>,
}

impl Model for RangeSets {
    ghost use Rattle.std.specs.Prelude.{List};
    ghost use Rattle.cni_addr.specs.declared.range.RangeSet.{RangeSet};

    ghost Value = { List RangeSet };

    ghost use Rattle.net_conf.specs.Sets.{AreRangeSets};

    ghost view = { λ s. s.sets };

    ghost invariant = { λ s. AreRangeSets s.sets };

    ghost inverse = { λ v. record { sets = v } };
}

impl RangeSets {
    /// The range sets of a list of them. Takes no memory.
    pub fn of_items(sets: Items<RefCounted<RangeSet>>) -> RangeSets
        requires few { length sets ≤ most_sets }
        requires apart { IsTrue (are_apart (ranges_of sets)) }
        ensures { result ≡ sets }
    {
        RangeSets { sets }
    }

    /// The sets in order. Takes no memory.
    pub fn as_slice(&self) -> &[RefCounted<RangeSet>]
        ensures all { result.now ≡ self.now }
        ensures few { length result.now ≤ most_sets }
        ensures apart { IsTrue (are_apart (ranges_of result.now)) }
    {
        self.sets.as_slice()
    }
}
