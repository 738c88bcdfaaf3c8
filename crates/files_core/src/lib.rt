//! The files' half of the core: turns, histories, sizes, leases, bars and noted sizes, as a pure machine.
//!
//! A guest has a file's turn while it applies one entry to it, a lease while it rests on the file's size, and the bar
//! while it may lower that. The meaning stands in `specs/`: `Files` (the state of the files, one row for each guest; what
//! a guest may do and what that makes of them), `Good` (when they are good), `Shown` (what a guest is shown of them),
//! `Laws` (what holds whatever guests do). `Files` does a deed exactly where it is allowed, and changes nothing else.
#![tactic(auto)]

mod core_file;
mod files;
mod laws;
mod rows;

pub use files::Files;
pub use laws::files_core_laws;
pub use rows::Note;
