//! When a transcript is legal for a script, and the audit that tells it.
//!
//! The meaning stands in `specs/`: `Items` (the lines of a transcript from top to bottom), `Guests` (what
//! the lines of one guest tell beside its calls), `Rules` (nine rules, each as the lines that break it),
//! `Legal` (a transcript is legal where none is broken, rule by rule; else the first broken rule and the
//! first line that breaks it). Transcripts themselves and their text stand in `transcript_text`.
#![tactic(auto)]

mod answers;
mod audits;
mod counts;
mod laws;
mod line_rules;
mod looks;
mod part_rules;
mod picks;
mod replays;
mod rules;
mod tales;
mod tests_of;
mod verdicts;
mod walks;
mod ways;

pub use audits::audit;
pub use laws::{items_are_lines, legal_without_fault};
pub use transcript_text::{EntryLine, FilePart, GuestPart, Line, Numbered, Transcript};
pub use verdicts::{Grant, Verdict};
