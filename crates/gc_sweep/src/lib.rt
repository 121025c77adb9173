//! Garbage collection of a network, a call at a time, and what it leaves.
//!
//! A [`GcRun`] follows the script of a GC (`specs/Sweep.antt` and `specs/Script.antt` of the crate
//! `cni_verbs`): a deletion for each owner of a cached result that the valid list doesn't name, then, kind by kind,
//! what such owners still have. A fault ends the part that it stands in and never the GC, and the answer
//! names each.
//!
//! A sweep that belongs to no network list is a [`SweepPlace`] alone, for any kinds, with the [`ValidIndex`] of the
//! attachments that stay.
//!
//! To the book above it promises that a run is seen as the list, the command and the script's state
//! (`specs/Progress.antt` of `cni_verbs`), that its next call and its answer are the script's, and that
//! [`GcRun::take`] takes memory for a fault's number and a copy of the owners alone. The [`laws`] say what any such run
//! does to a sound host (`specs/Sweep.antt`): what is kept stays as it is, a call about what is left over was
//! faulty, and without a fault exactly what is kept is left (`keep` in `specs/Keep.antt`), within a bound on the calls
//! (`specs/Bound.antt`).
//!
//! ```text
//! let mut run = GcRun::start(alloc, &list, &gc)?;
//! run.next()?                          // OwnersOf { network: "pods", kind: Cached }
//! run.take(&Reply::Owners(owners))?;   // c1 and c2, of which c2 is valid
//! run.next()?                          // CacheGet, for c1
//! run.take(&Reply::Fault)?;            // c1's deletion ends here, the GC goes on
//! run.next()?                          // OwnersOf { network: "pods", kind: Links }
//! ```
#![tactic(auto)]

pub mod laws;
mod place;
pub mod run;
mod valid;

pub use place::SweepPlace;
pub use run::GcRun;
pub use valid::ValidIndex;
