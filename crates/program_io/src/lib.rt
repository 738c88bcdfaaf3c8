//! The outside of the programs: the words of their command line, what they read from and write to, how both
//! fail, the two loops that read all and write all, and the exit statuses.
//!
//! Code over [`Source`] and [`Sink`] is proved once, for the process's own streams and for bytes in
//! memory alike. What they mean stands in their ghost members; the words of the clauses stand in
//! `specs/`: `Causes` (faults and their count), `Calls` and `Memory` (sources and sinks over
//! bytes in memory), `Statuses` (the table of numbers), `Runs` (which statuses a run may end with).
#![tactic(auto)]

mod calls;
mod memory;
mod reads;
mod statuses;
mod std_streams;
mod sure;
#[cfg(test)]
mod tests;
mod traits;
mod words;
mod writes;

pub use memory::{MemSink, MemSource};
pub use reads::{ReadError, read_all};
pub use statuses::Status;
pub use std_streams::{StdSink, StdSource};
pub use sure::{SureSink, SureSource};
pub use traits::{Failed, Sink, Source};
pub use words::{Word, command_words};
pub use writes::write_all;
