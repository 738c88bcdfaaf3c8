use page_map::Mode;
use plain_file::Through;

/// What a range of the window is.
#[derive(Clone, Copy, Debug, PartialEq, Eq)]
pub enum RangeState {
    /// No file has it, and nobody moves it.
    Free,
    /// A guest moves it from one place to another.
    Moving {
        /// The guest's number.
        guest: u32,
    },
    /// A chunk of a file is placed in it.
    Mapped {
        /// The file's number.
        file: u32,
        /// The chunk's number.
        chunk: u32,
        /// What the placement allows.
        mode: Mode,
    },
}

/// A guest's pin on a range. While it has it, nobody takes the range.
#[derive(Clone, Copy, Debug, PartialEq, Eq)]
pub struct Pin {
    /// The range's number.
    pub range: u32,
    /// The number of the file that has it.
    pub file: u32,
    /// The chunk that is placed there.
    pub chunk: u32,
    /// What the placement allowed when the pin was made.
    pub mode: Mode,
    /// The place of the placement in the file's log, and how long the log was when the pin was made.
    pub through: Through,
}
