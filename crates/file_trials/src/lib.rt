//! Files and output, tried: files in memory and those of the system, and what is written until a write ends it.
//!
//! What `cni_io` promises of files and sinks whose bytes a proof reaches is proved there. Here it is tried beside them
//! that the files of the system give what was written, and each refusal of theirs.
#![tactic(auto)]

#[cfg(test)]
mod tests;
