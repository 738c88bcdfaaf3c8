use page_map::Look;
use plain_file::{Answer, Blob, List, Through};
use thiserror::Error;

/// A call that was done.
#[derive(Debug, Drop)]
pub struct Done {
    /// The place of its entry in the file's history, counted from 0.
    pub place: u64,
    /// What it was answered.
    pub answer: Answer,
}

/// A hold that was granted.
#[derive(Clone, Copy, Debug, PartialEq, Eq)]
pub struct Held {
    /// Where the bytes of the file end that may be loaded and stored, in bytes from the file's start: at the
    /// chunk's end, or at the file's size as it was noted.
    pub end: u64,
    /// The placement that the hold goes through.
    pub through: Through,
}

/// Why a call wasn't done.
#[derive(Debug, Drop, Error)]
pub enum Refusal {
    /// No range can be taken: each one is moving by another guest, or has pins.
    #[error("no range can be taken")]
    Busy {
        /// A look at each range, in order of ranges.
        looked: List<Look>,
    },
    /// The file is leased, and so can't be truncated.
    #[error("{count} leases on the file")]
    Leased {
        /// How many leases were seen on the file.
        count: u32,
    },
    /// The hold wasn't granted, or is released.
    #[error("hold {hold} isn't granted")]
    NoHold {
        /// The hold's number.
        hold: u32,
    },
    /// The access ends above the hold's end.
    #[error("the hold ends at byte {end} of the file")]
    Past {
        /// The hold's end.
        end: u64,
    },
    /// A request was answered with an error.
    #[error("error {number}")]
    Errno {
        /// The error's number, from 1 to 4095.
        number: i32,
    },
    /// What was received for a request is no reply to it; or it is a success, and what was asked for
    /// wasn't done.
    #[error("no reply to the request")]
    BadReply {
        /// The bytes received.
        bytes: Blob,
    },
    /// The wire failed.
    #[error("the wire failed")]
    WireFault,
    /// An allocation was refused. A request may have been carried out.
    #[error("out of memory")]
    Memory,
}
