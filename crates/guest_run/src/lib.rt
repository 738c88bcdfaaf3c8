//! What guests do by their calls, as a transcript tells it.
//!
//! [`worker`] makes the calls of one guest over any boards and any honest wire, and tells a line of each. A
//! [`Gate`] stands round each call. [`background`] makes turns of the background beside the guests.
//! `specs/Runs` says what one guest's run is, in the histories and placement logs that it has seen, and
//! `proofs/AllGuests` that the runs of all guests of a script are a legal transcript; `specs/Working` says
//! which calls a worker makes, what they rest on, and what comes of each; `specs/Telling` the line that an
//! answer makes.
#![tactic(auto)]

mod backgrounds;
mod gates;
mod lines;
mod workers;

pub use backgrounds::background;
pub use gates::{Gate, OpenGate, Point};
pub use workers::worker;
