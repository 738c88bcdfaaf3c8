//! Where the chunks of a file are placed in the window's ranges: a file's tree with its placement log, and
//! the boards by which guests take ranges, pin them, and place chunks in them.
//!
//! The types stand beside the board of pages, in `page_map`, and so does what a log says by itself: which
//! of its entries are live, what is placed at its end, which logs are sound. Here stand in `specs/`
//! `Trees` (what a log and the table of a tree say of each other, and what a tree's calls make of a log),
//! `Logs` (what an entry places as seen from later on, what is found of a chunk, and where a log is unsound
//! first), `Behind` (of each entry, where behind it its range is removed and upgraded next), `Ranges` (what
//! the calls of a board of ranges make of its view) and `Plain` (the board of one guest).
//!
//! This is the bookkeeping of the interval tree of a DAX inode in Linux `fs/fuse/dax.c`.
#![tactic(auto)]

mod boards;
mod lives;
mod plain;
#[cfg(test)]
mod plain_tests;
mod plain_turns;
mod slots;
#[cfg(test)]
mod tests;
mod trees;
mod unsound;

pub use boards::RangeBoard;
pub use lives::Lives;
pub use page_map::{LogEntry, Look, Placed, RangeWord, Target};
pub use plain::PlainRanges;
pub use trees::Tree;
pub use unsound::first_unsound;
