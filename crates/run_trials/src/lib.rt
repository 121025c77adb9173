//! A run of the top call on the calling thread alone, tried over a sink in memory.
//!
//! What `tool_run` promises of each end is proved, and what is printed of a command is in the rows of the program,
//! which makes its runs of the same parts. Here stand the status and the line of one run, as a row of the program has
//! them.
#![tactic(auto)]

#[cfg(test)]
mod alone;
