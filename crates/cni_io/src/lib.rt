//! The outside of the runtime: files that are read whole, and a sink that takes the output.
//!
//! The crates above reach the outside only by the two traits here, [`Files`] and [`Sink`]. Each has
//! a count of failures that never falls, so a caller that tells of a failed read or write can prove
//! that there was one. Where files tell what they hold and a sink tells what it was given, as
//! [`MemFiles`] and [`MemSink`] do, the bytes that were read and written are known too.
//! [`RealFiles`] and [`RealSink`] adapt the file system and standard output. They tell no bytes,
//! since no proof reaches what the system does.
//!
//! A file goes to the sink, three bytes a write at most, and the second write fails:
//!
//! ```text
//! let mut files = MemFiles::new(alloc, Vec::new(alloc));
//! files.add(Text::of(alloc, "hosts")?, b"c1 c2".to_vec(alloc)?)?;
//! let bytes = files.read(alloc, "hosts", 64)?;
//!
//! let mut sink = MemSink::new(alloc, vec![in alloc; 2]?, 3, 64)?;
//! let end = write_whole(&mut sink, &bytes);
//! // end == Err(WriteEnd::Failed { written: 3 }), and sink.written() is `c1 `
//! ```
#![tactic(auto)]

mod failing_calls;
mod files;
mod mem_files;
mod mem_sink;
mod real_files;
mod real_sink;
mod sink;
mod whole;

pub use files::{FileFault, Files};
pub use mem_files::MemFiles;
pub use mem_sink::MemSink;
pub use real_files::RealFiles;
pub use real_sink::RealSink;
pub use sink::{Sink, SinkFault};
pub use whole::{WriteEnd, write_whole};
