//! The chain stream: a recording of the chains of a virtio-fs queue, and of loads and stores in the window
//! of direct access, which is cut into frames as it comes and answered frame by frame.
//!
//! [`answer_stream`] reads the header, cuts the stream into frames by `frames` as it comes through
//! `pendings`, and has a [`Responder`] answer each of them, whatever the answers are.
//!
//! The definitions stand in `specs/`: `Frames` (the frames of a whole input), `Headers` (its header),
//! `Courses` (what becomes of a stream, and what was done of it).
#![tactic(auto)]

#[cfg(test)]
mod frame_tests;
mod frames;
mod headers;
#[cfg(test)]
mod pending_tests;
mod pendings;
mod responding;
mod streams;

pub use frames::{End, Lead, Reason, begins};
pub use responding::Responder;
pub use streams::answer_stream;
