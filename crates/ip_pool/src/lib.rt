//! The address that is leased next: the choice of the `host-local` plugin, round robin over a set of ranges.
//!
//! The candidates of a set are its ranges in order, each from its start to its end, without that range's gateway.
//! What the crate promises above:
//!
//! - [`pick`] gives the first free candidate after the last one that was leased, going round at the end, and none
//!   exactly where every candidate is taken. [`has_free`] says whether one is left. Neither takes memory or changes
//!   anything, and both ask about one address after the other.
//! - [`AddrRuns`] is a set of addresses that is kept as runs of neighbours. Once there is room for an address, it is
//!   added without memory, and no removal needs memory.
//! - [`pick_runs`] and [`has_free_runs`] give the same answers from such a set, in two steps for each range and two
//!   more at most, however many addresses are taken. [`Steps`] counts the steps, at no cost.
//! - The choice depends on which addresses are taken, and not on how they are kept. [`laws`] has this law and others,
//!   which hold for all sets.
//!
//! Contracts say the choice twice: by a search over the list of candidates (`pick_of`), which other definitions build
//! on, and by the relation that a reader believes (`IsPick`): a free candidate such that every candidate on the way to
//! it is taken.
//!
//! An example, with `set` the one range of 10.1.0.0/29 from 10.1.0.2 to 10.1.0.6, whose gateway is 10.1.0.1. The last
//! lease was 10.1.0.5. With 10.1.0.3 to 10.1.0.6 in `runs`, which is one run, the way goes round to the start:
//!
//! ```text
//! pick_runs(&set, Some(last), &runs, &mut steps)  // 10.1.0.2, after two steps: 10.1.0.6 is in a run, 10.1.0.2 in none
//! runs.remove(&sixth)                             // true: 10.1.0.6 is free again
//! pick_runs(&set, Some(last), &runs, &mut steps)  // 10.1.0.6, after one step more
//! ```
#![tactic(auto)]

ghost use Rattle.std.specs.Prelude.{◌≡◌, List, true, MatchBool};
ghost use Rattle.cni_addr.specs.declared.address.Addr.{Addr};
ghost use Rattle.ip_pool.specs.NextAddress.{is_candidate_or_none, is_taken, HasFree, IsExhausted, IsPick};
ghost use Rattle.ip_pool.specs.Pool.{pick_of, has_free_of, are_apart};

mod addr_runs;
mod by_runs;
mod candidates;
mod free;
pub mod laws;
mod runs;
mod step_count;

pub use addr_runs::AddrRuns;
pub use by_runs::{has_free_runs, pick_runs};
pub use candidates::{are_apart, contains_candidate, is_apart, is_between, is_in_range};
use cni_addr::{Addr, Items, RangeSet};
use free::{first_free, first_free_after};
pub use step_count::Steps;

/// Addresses that are taken. Contracts see them as a list, in any order.
pub trait Taken {
    ghost taken: { Self → List Addr };

    /// Whether the address is taken: whether it is in the list.
    fn has(&self, addr: &Addr) -> bool
        ensures { result ≡ is_taken (taken self.now) addr.now };
}

/// A list of addresses means itself. A question takes a step an address.
impl Taken for Items<Addr> {
    ghost taken = { λ addrs. addrs };

    fn has(&self, addr: &Addr) -> bool {
        self.as_slice().contains(addr)
    }
}

/// The address that is leased next (by the round robin of the `host-local` plugin).
///
/// It is the first free candidate after `last`: the rest of the range that has `last`, then the later ranges, then
/// the earlier ones, then that range up to `last`, which is tried at the end. Without a `last` it is the first free
/// candidate of all. `None` comes exactly where every candidate is taken.
///
/// The ranges share no address ([`are_apart`] tests it) and `last` is a candidate ([`contains_candidate`]).
///
/// Takes no memory. Each candidate that is passed costs one question to `taken`, and each range a few steps.
pub fn pick<T: Taken>(set: &RangeSet, last: Option<Addr>, taken: &T) -> Option<Addr>
    requires apart { are_apart set.now.ranges ≡ true }
    requires last { is_candidate_or_none set.now last ≡ true }
    ensures picks { result ≡ pick_of set.now last (T.taken taken.now) }
    ensures next { IsPick set.now last (T.taken taken.now) result }
{
    let ranges = set.ranges.as_slice();
    match last {
        None => first_free(ranges, taken),
        Some(last) => first_free_after(ranges, &last, taken),
    }
}

/// Whether a candidate of the set is free. `false` comes exactly where every candidate is taken.
///
/// Takes no memory, and at most as many questions to `taken` as there are candidates.
pub fn has_free<T: Taken>(set: &RangeSet, taken: &T) -> bool
    ensures free { result ≡ has_free_of set.now (T.taken taken.now) }
    ensures left { MatchBool result
        (HasFree set.now (T.taken taken.now)) (IsExhausted set.now (T.taken taken.now)) }
{
    first_free(set.ranges.as_slice(), taken).is_some()
}
