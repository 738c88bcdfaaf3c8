use page_map::{Mode, Target};
use plain_file::Entry;

/// What a guest does in one step: one step on one word of a table that guests share.
#[derive(Debug, Drop)]
pub enum Event {
    /// Takes a file's tree, which nobody has. The guest has none.
    Enter {
        /// The file's number.
        file: u32,
    },
    /// Gives back the tree that the guest has.
    Leave,
    /// Looks at a range.
    Look {
        /// The range's number.
        range: u32,
    },
    /// Takes a range that is free, or that has no pin and is mapped to the file whose tree the guest has, to move it.
    /// The guest moves none.
    Take {
        /// The range's number.
        range: u32,
    },
    /// Sets what the pages of a range are mapped to, or that they are mapped to nothing. The guest moves the range, or
    /// it has the tree in which the range is placed at that target, and the mode is for writing.
    SetMap {
        /// The range's number.
        range: u32,
        /// The target.
        to: Option<Target>,
    },
    /// Settles the range that the guest moves: its pages are mapped to this chunk, with this mode, of the file whose
    /// tree the guest has, and the tree gets the chunk, which it doesn't have.
    SettleMapped {
        /// The chunk's number.
        chunk: u32,
        /// What the placement allows.
        mode: Mode,
    },
    /// Settles the range that the guest moves: it is free.
    SettleFree,
    /// Pins a range that is in the tree which the guest has. The guest has fewer than 64 pins.
    Pin {
        /// The range's number.
        range: u32,
    },
    /// Takes away the guest's oldest pin on a range.
    Unpin {
        /// The range's number.
        range: u32,
    },
    /// A range that is in the tree which the guest has, for reading, may be written from here on. Its pages are mapped
    /// for writing.
    Upgrade {
        /// The range's number.
        range: u32,
    },
    /// Takes a file's turn, which nobody has. The guest has none.
    TakeTurn {
        /// The file's number.
        file: u32,
    },
    /// Applies an entry in the turn that the guest has, in which none was applied. The entry is this guest's, and the
    /// size doesn't fall unless the guest has the file's bar.
    SetSize {
        /// The entry.
        entry: Entry,
    },
    /// Gives back the turn that the guest has. The history grows by the entry that was applied.
    GiveTurn,
    /// Leases a file that has no bar. The guest has fewer than 64 leases on it.
    Lease {
        /// The file's number.
        file: u32,
    },
    /// Notes the size of a file.
    NoteSize {
        /// The file's number.
        file: u32,
    },
    /// Gives back a lease that the guest has on a file.
    Unlease {
        /// The file's number.
        file: u32,
    },
    /// Takes a file's bar, which nobody has, where nobody has a lease on the file. The guest has no bar.
    Bar {
        /// The file's number.
        file: u32,
    },
    /// Gives back the bar that the guest has on a file.
    Unbar {
        /// The file's number.
        file: u32,
    },
}

/// An event of one guest.
#[derive(Debug, Drop)]
pub struct GuestEvent {
    /// The guest's number.
    pub guest: u32,
    /// What it does.
    pub event: Event,
}
