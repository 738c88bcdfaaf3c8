use page_map::Mode;
use plain_file::{Blob, First, List, Name};

/// One call of a guest. A file is named by its place among the script's files, a hold by its place
/// among the guest's `Hold` calls. Offsets and lengths are in bytes; those of `Load` and `Store` count
/// from the start of the hold's chunk.
#[derive(Debug, Drop)]
pub enum Call {
    /// Reads `len` bytes from `off` on.
    Read {
        file: u32,
        off: u64,
        len: u32,
    },
    /// Writes the bytes at `off`.
    Write {
        file: u32,
        off: u64,
        bytes: Blob,
    },
    /// Writes `len` times `byte` at `off`.
    Fill {
        file: u32,
        off: u64,
        len: u32,
        byte: u8,
    },
    /// Asks for the size.
    Size {
        file: u32,
    },
    /// Cuts the file, or fills it up with zeros.
    Truncate {
        file: u32,
        size: u64,
    },
    /// Holds a chunk of 2 MiB in the window.
    Hold {
        file: u32,
        chunk: u32,
        mode: Mode,
    },
    /// Reads through a hold.
    Load {
        hold: u32,
        off: u64,
        len: u32,
    },
    /// Writes through a hold.
    Store {
        hold: u32,
        off: u64,
        bytes: Blob,
    },
    /// Gives a hold up.
    Release {
        hold: u32,
    },
}

/// A file of a script: its name, and what it begins with.
#[derive(Debug, Drop)]
pub struct FileLine {
    pub name: Name,
    pub first: First,
}

/// What a run is to do: the number of window ranges, the turns of the background reclaimer, the
/// files, and each guest's calls in order.
#[derive(Debug, Drop)]
pub struct Script {
    pub ranges: u32,
    pub background: u32,
    pub files: List<FileLine>,
    pub guests: List<List<Call>>,
}
