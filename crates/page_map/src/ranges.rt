use crate::pages::Mode;

/// One entry of a file's placement log, which tells where the file's chunks were placed in the window,
/// as the interval tree of a DAX inode does in Linux `fs/fuse/dax.c`. Chunks of a file and ranges of the
/// window have `RANGE_SIZE` bytes and are numbered from 0.
#[derive(Clone, Copy, Debug, PartialEq, Eq)]
pub enum LogEntry {
    /// A chunk was placed in a range.
    Place {
        /// The chunk's number, below `MAX_CHUNKS`.
        chunk: u32,
        /// The range's number.
        range: u32,
        /// What the placement allows.
        mode: Mode,
    },
    /// The chunk in the range may be written from here on.
    Upgrade {
        /// The range's number.
        range: u32,
    },
    /// The range was taken away from the file.
    Remove {
        /// The range's number.
        range: u32,
    },
}

/// Where a chunk is placed.
#[derive(Clone, Copy, Debug, PartialEq, Eq)]
pub struct Placed {
    /// The range's number.
    pub range: u32,
    /// What the placement allows now.
    pub mode: Mode,
    /// The place of its `Place` in the log, counted from 0.
    pub entry: u64,
}

/// What a range is seen to be.
#[derive(Clone, Copy, Debug, PartialEq, Eq)]
pub enum RangeWord {
    /// No file has it, and nobody moves it.
    Free,
    /// A guest moves it from one place to another.
    Moving {
        /// The guest's number.
        guest: u32,
    },
    /// A chunk of a file is placed in it.
    Mapped {
        /// The file's number.
        file: u32,
        /// The chunk's number, below `MAX_CHUNKS`.
        chunk: u32,
        /// What the placement allows.
        mode: Mode,
        /// How many pins there are on the range, all guests' together.
        pins: u32,
    },
}

/// What all pages of a range are mapped to.
#[derive(Clone, Copy, Debug, PartialEq, Eq)]
pub struct Target {
    /// The file's number.
    pub file: u32,
    /// The chunk's number, below `MAX_CHUNKS`.
    pub chunk: u32,
    /// What the mapping allows.
    pub mode: Mode,
}

/// A look at a range.
#[derive(Clone, Copy, Debug, PartialEq, Eq)]
pub struct Look {
    /// The range's number.
    pub range: u32,
    /// What was seen.
    pub word: RangeWord,
}
