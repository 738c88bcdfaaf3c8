//! Scripts: what a run is to do.
//!
//! A script is the number of window ranges, turns of the background, files, and calls of guests on them.
//! [`parse`] reads one from its text, or tells the first bad line with its first reason; [`print`] writes its
//! printed form. What it means stands in `specs/`: `ScriptText` (what text is a script, and else which line is the
//! first bad one, for which reason), `ScriptWords` (what one word says there), `Steps`, `Asks` (what the
//! calls ask: file, operation, hold), `ScriptPrinted` (the printed form), `Fits` (the limits of scripts,
//! which exactly those keep that some text gives; what is printed of such a script reads as it again).
#![tactic(auto)]

mod asks;
mod call_reads;
mod counted_words;
mod fits;
mod halts;
mod laws;
mod parses;
mod prints;
mod readings;
#[cfg(test)]
mod script_tests;
mod scripts;
mod whys;
mod word_reads;

pub use asks::{Held, Target, held_by, hold_places, target_of};
pub use laws::fits_is_what_texts_give;
pub use parses::parse;
pub use prints::print;
pub use scripts::{Call, FileLine, Script};
pub use whys::{BadScript, Why};

/// How many bytes a chunk of a file has.
pub const CHUNK: u64 = 2_097_152;
