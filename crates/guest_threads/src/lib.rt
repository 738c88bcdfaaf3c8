//! The guests of a run on threads: each makes its calls over the tables of files and ranges that all share.
//!
//! [`open_tables`] opens both tables. [`run_guests`] gives each guest a pass of each, runs the guests side by side by
//! [`guest_run::worker`], each with a wire of its own to the one daemon, and a background beside them by
//! [`guest_run::background`], takes every pass back, and tells what the first passes have seen then. `specs/Jobs` says
//! what a guest's job is before and after its work, and what the first passes keep of it; `specs/Ran` what is left at
//! the end: histories and logs in which each guest's lines are its run.
#![tactic(auto)]

mod jobs;
mod runs;
mod teams;
mod tellings;

pub use jobs::Job;
pub use runs::{Ran, Tables, open_tables, run_guests};
pub use tellings::FileTold;
