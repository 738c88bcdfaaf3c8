//! Transcripts of runs and their text: [`print`] writes it, and [`parse`] reads it or tells the first bad line.
//!
//! The meaning stands in `specs/`: `TranscriptText` (the text), `TranscriptReading` (what text is a
//! transcript, and else which line is the first bad one), `Fits` (the bounds of transcripts, which exactly those
//! keep that some text gives; what is printed of such a transcript is read as it again).
#![tactic(auto)]

mod drafts;
mod fits;
mod laws;
mod parsing;
mod printing;
mod reading;
#[cfg(test)]
mod tests;
mod transcripts;

pub use laws::{fits_is_what_texts_give, text_determines_transcript};
pub use parsing::parse;
pub use printing::print;
pub use transcripts::{BadTranscript, EntryLine, FilePart, GuestPart, Line, Numbered, Transcript};
