//! Shows what is recorded in a chain stream: each FUSE request, load and store as one line. Serves such a
//! stream as a device, one output frame for each frame. Serves the chains that stand in a guest's
//! memory, and prints what came of each. And audits the transcript of a script's run.
//!
//! `main` makes the real source, sink and words, and calls `runs::run_wire`, whose contract is the
//! program's. A stream is cut into frames and answered by `chain_stream`, whatever the answers are:
//! `shows` gives each frame its line, `serves` its output frame by a device of `dax_device`. What is read
//! whole is answered by `wholes`, whatever the answer is. A ring image is opened and served chain by chain by
//! `dax_device` too; `ring_lines` has its lines, `rings` the whole. `divides` parts a script from its
//! transcript, and `audits` has `dax_audit` judge them.
//!
//! The definitions stand in `specs/`: `Show` (the lines), `Serve` (the output frames), `Wholes` (what is
//! due for an input that is read whole), `RingText` (what serving a ring image prints), `AuditText` (what an
//! audit prints), `Commands` and `Run` (what a run writes with which status).
#![tactic(auto)]

#[cfg(test)]
mod audit_table;
#[cfg(test)]
mod audit_tests;
mod audits;
mod commands;
mod divides;
#[cfg(test)]
mod peer_tests;
mod ring_lines;
#[cfg(test)]
mod ring_table;
#[cfg(test)]
mod ring_tests;
mod rings;
mod runs;
#[cfg(test)]
mod serve_table;
mod serves;
#[cfg(test)]
mod show_table;
mod shows;
#[cfg(test)]
mod stream_tests;
#[cfg(test)]
mod tables;
mod wholes;

use plain_file::Memory;
use program_io::{Status, StdSink, StdSource, command_words};
use std::env;
use std::process::ExitCode;

fn main(rt: HostRuntime) -> ExitCode {
    let alloc = rt.alloc();
    let status = match command_words(alloc, env::args(&rt)) {
        Ok(words) => runs::run_wire(
            alloc,
            words.as_slice(),
            &mut StdSource::new(rt.stdin()),
            &mut StdSink::new(rt.stdout()),
        ),
        Err(Memory) => Status::Memory,
    };
    ExitCode::from(status.number())
}
