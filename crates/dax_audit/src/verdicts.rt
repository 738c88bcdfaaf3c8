use plain_file::Through;

/// What a granted hold has: its end, and the placement that it goes through.
#[derive(Clone, Copy)]
pub struct Grant {
    /// The file's offset behind the last byte that may be read or written.
    pub end: u64,
    /// The placement.
    pub through: Through,
}

/// Whether a transcript is legal; else the first broken rule, and the first line that breaks it.
#[derive(Clone, Copy, Debug, PartialEq, Eq)]
pub enum Verdict {
    /// No rule is broken.
    Legal,
    /// A rule is broken, and none before it.
    Fault {
        /// The rule's number, 1 to 9.
        rule: u32,
        /// The first line that breaks it, counted from 1 in the transcript's text.
        line: u64,
    },
}
