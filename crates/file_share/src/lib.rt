//! Files' histories that several guests share on one table of words, a turn at a time.
//!
//! A `FileTable` has the files, and each thread has a `FilePass` on it. A table is opened with its first pass, from
//! which others are split and to which they are joined, and at last it is closed; `marks` reads whose a history's
//! entries are while it is open. A pass waits for a file's turn, applies one operation in it, and gives it back; it
//! looks at a file's size, which it notes; it leases a file, which keeps the file from shrinking, and takes the bar,
//! with which it may shrink it. A table shows the files' half of the core, and each step on a word is one deed of that
//! half. `SharedFiles` is a pass as a board of files.
//!
//! The definitions stand in `specs/`: `Table` (the core, and what a table shows of it), `Steps` (what a step on a word
//! tells), `Tries`, `Known` (what a pass is to its caller, and what its calls answer and leave), `Places`, `Boards` (what a
//! pass means as a board).
#![tactic(auto)]

mod boards;
mod closed;
mod marks;
mod rule;
mod share;
mod steps;
mod table;
#[cfg(test)]
mod tests;

pub use boards::SharedFiles;
pub use closed::ClosedFiles;
pub use marks::{EntryMark, Marks};
pub use rule::{Files, Opening, View};
pub use table::{FilePass, FileTable, MAX_FILES};
