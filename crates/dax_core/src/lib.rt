//! The core over all schedules: the pure machine of ranges, trees, logs, pins, turns, histories, leases, bars and sizes.
//!
//! Guests share a window and files by steps on words, each of which is one `Event`. A schedule of any number of guests is
//! a list of events, and whichever it is, a good core stays good. The meaning stands in `specs/`: `Core` (the state as its
//! two halves, what a guest may do to it, when it is good), `Events` (which deeds an event may be, one step, a list of
//! steps), `Halves` (a step of one half), `Laws` (what holds under every schedule, and the law of halves). The halves
//! themselves are those of `files_core` and `window_core`.
//!
//! No thread, word or lock stands here: a table that threads share has to show a good half between any two of its steps,
//! each of which is one event.
#![tactic(auto)]

mod events;
mod laws;
mod machine;
#[cfg(test)]
mod refusal_tests;
mod steps;
#[cfg(test)]
mod tests;
#[cfg(test)]
mod walk_tests;

pub use events::{Event, GuestEvent};
pub use laws::dax_core_laws;
pub use machine::Core;
