use plain_file::{Answer, Blob, First, List, Name, Through, Way};
use range_tree::LogEntry;

/// One entry of a file's history: the guest and the call that made it, and its way. The operation is
/// the call's.
#[derive(Clone, Copy, Debug, PartialEq, Eq)]
pub struct EntryLine {
    /// The guest's number, counted from 0.
    pub guest: u32,
    /// The call's number among the guest's calls, counted from 0.
    pub call: u32,
    /// How the operation came to the file.
    pub way: Way,
}

/// A file with its history and its placement log, both in order.
#[derive(Debug, Drop)]
pub struct FilePart {
    /// The file's name.
    pub name: Name,
    /// What the file began with.
    pub first: First,
    /// The file's history.
    pub entries: List<EntryLine>,
    /// Where the file's chunks were placed in the window.
    pub log: List<LogEntry>,
}

/// What became of a call.
#[derive(Debug, Drop)]
pub enum Line {
    /// It was carried out at this place of its file's history, counted from 0, with this answer.
    Done { place: u64, answer: Answer },
    /// The hold was granted up to this end, through this placement.
    Held { end: u64, through: Through },
    /// The hold was given up.
    Released,
    /// Each range was pinned (`p`) or moving (`m`), one letter a range.
    Busy { letters: Blob },
    /// So many leases stood against the truncation.
    Leased { count: u32 },
    /// The hold wasn't granted, or was given up before.
    NoHold,
    /// The access ends above this end of its hold.
    Past { end: u64 },
}

/// A line with its call's number, counted from 0 for each guest.
#[derive(Debug, Drop)]
pub struct Numbered {
    /// The call's number.
    pub call: u32,
    /// What became of it.
    pub line: Line,
}

/// A guest with the lines of its calls in order. Guests count from 0.
#[derive(Debug, Drop)]
pub struct GuestPart {
    /// The guest's number.
    pub guest: u32,
    /// The lines of its calls.
    pub lines: List<Numbered>,
}

/// What a run did.
#[derive(Debug, Drop)]
pub struct Transcript {
    /// The version of the form, 1.
    pub version: u32,
    /// How many ranges the window has.
    pub ranges: u32,
    /// The files with their histories.
    pub files: List<FilePart>,
    /// The guests with the lines of their calls.
    pub guests: List<GuestPart>,
}

/// Why a text is no transcript.
#[derive(Clone, Copy, Debug, PartialEq, Eq)]
pub enum BadTranscript {
    /// The first bad line of the text, counted from 1.
    Line {
        /// Its number; the number of lines and 1 where the text ends too early.
        line: u64,
    },
    /// An allocation was refused.
    Memory,
}
