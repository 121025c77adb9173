//! The modelled kernel over tables, in which a call looks up what it asks for.
//!
//! What it promises above: [`TableKernel`] keeps the whole contract of [`Kernel`](kernel_model::Kernel), so that each
//! call gives the host and the reply of `apply` (`kernel_types/specs/Apply.antt`), as `kernel_model::ListKernel` does.
//! A call takes all its memory before it changes anything, and the calls that never need memory take none.
//!
//! ```text
//! let mut kernel = TableKernel::of_host(alloc, opening)?;
//! kernel.call(alloc, &Call::Begin { att, netns })?  // Reply::Done, Reply::NoNs or Reply::Taken
//! kernel.host(alloc)?                               // the host after it
//! ```
#![tactic(auto)]

mod table_kernel;

pub use table_kernel::TableKernel;
