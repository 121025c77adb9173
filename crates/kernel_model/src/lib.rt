//! The modelled kernel: the trait, the kernel over plain lists, and one for tests that refuses memory.
//!
//! What it promises above: a [`Kernel`] means a sound host; a call that may be made gives the host and the reply of
//! `apply` (`kernel_types/specs/Apply.antt`), one that runs out of memory leaves the host as it was, nine calls and the
//! removal of a namespace never need memory, and no kernel replies with a fault. [`ListKernel`] keeps this contract
//! over nine vectors, which it may scan: it is the plain definition made to run. [`RefusingKernel`] keeps it over any
//! kernel. The types that a caller of a kernel names are handed on from `kernel_types`.
//!
//! ```text
//! let mut kernel = ListKernel::of_host(opening);
//! kernel.call(alloc, &Call::Begin { att, netns })?  // Reply::Done, Reply::NoNs or Reply::Taken
//! kernel.host(alloc)?                               // the host after it
//! ```
#![tactic(auto)]

mod compared;
pub mod kernel;
pub mod list_kernel;
mod lists;
mod lookups;
mod owners;
pub mod refusing;

pub use kernel::Kernel;
pub use kernel_types::{
    AddrObj, Att, CachedObj, Call, Chain, Change, Given, Host, Kind, Last, Lease, Link, LinkKey,
    LinkKind, NsObj, Object, Probe, Reply, RouteObj, Rule, Setting, Table, Tag, Target,
};
pub use list_kernel::ListKernel;
pub use refusing::RefusingKernel;
