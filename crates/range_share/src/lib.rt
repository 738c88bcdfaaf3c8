//! The ranges of a direct access window that several guests share on one table of words.
//!
//! A `RangeTable` has a control word and a map word per range, and per file the word of its tree; each thread has a
//! `RangePass` on it. A table is opened with its first pass, from which others are split and to which they are joined.
//! Once all are in, the first pass copies the files' placement logs by `log_of`, and at last the table is closed. A
//! pass waits for the tree of a file, looks at ranges, takes one from any file by one compare and exchange, maps it,
//! places a chunk there or frees it; it pins a range, which nobody takes then, and upgrades a placement. A table shows
//! the window's half of the core, and each step on a word is one deed of that half. `SeatMap` is a pass as a board of
//! ranges.
//!
//! The definitions stand in `specs/`: `Packed` (words as numbers), `Table` (the core, and what a table shows of it),
//! `Steps` (what a step on a word tells), `Known` (what a pass is to its caller, and what its calls answer and leave),
//! `Boards` (what a pass means as a board).
//!
//! Ranges and trees are those of a DAX inode in Linux `fs/fuse/dax.c`.
#![tactic(auto)]

mod boards;
mod closed;
mod packing;
mod rule;
mod share;
mod steps;
mod table;
#[cfg(test)]
mod tests;

pub use boards::SeatMap;
pub use closed::ClosedTrees;
pub use rule::{Ranges, Sizes, View};
pub use table::{MAX_RANGES, RangePass, RangeTable};
