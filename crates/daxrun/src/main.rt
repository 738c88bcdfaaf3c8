//! Runs a script of files, window ranges and calls against a FUSE daemon that keeps its files in memory, and
//! writes the transcript: each file's history and placement log, and each call's reply.
//!
//! `main` makes the real source, sink and words, and calls `runs::run`, whose contract is the program's. A
//! script is read by `dax_script`. Its files are opened by `sessions`, through the `requests` of a client, and
//! `plays` plays it: the guests of `guest_threads` make the calls. The transcript is printed by
//! `transcript_text`. The definitions stand in `specs/`: `Run` (what a run writes and shows with which status),
//! `Plays` (what comes of playing a script), `Carried` (which scripts are carried out), `Session` (open files). What a script is, when a transcript is
//! legal for it, and what a guest's run is, is said in `dax_script`, `dax_audit` and `guest_run`.
#![tactic(auto)]

#[cfg(test)]
mod gate_tests;
#[cfg(test)]
mod guest_tests;
#[cfg(test)]
mod hold_tests;
#[cfg(test)]
mod play_tests;
mod plays;
mod requests;
#[cfg(test)]
mod run_tests;
mod runs;
mod sessions;

use guest_run::OpenGate;
use plain_file::Memory;
use program_io::{Status, StdSink, StdSource, command_words};
use runs::Shown;
use std::env;
use std::mem::forget;
use std::process::ExitCode;

fn main(rt: HostRuntime) -> ExitCode {
    let alloc = rt.alloc();
    let mut shown = Shown::Nothing;
    let status = match command_words(alloc, env::args(&rt)) {
        Ok(words) => runs::run(
            &rt,
            alloc,
            words.as_slice(),
            &mut StdSource::new(rt.stdin()),
            &mut StdSink::new(rt.stdout()),
            &OpenGate,
            &mut shown,
        ),
        Err(Memory) => Status::Memory,
    };
    // The program ends here, so that nobody waits for the memory of each call and entry.
    forget(shown);
    ExitCode::from(status.number())
}
