use page_map::Look;
use plain_file::{Blob, List};
use thiserror::Error;

/// Why a call of a guest's ranges didn't do what it was asked to.
#[derive(Debug, Drop, Error)]
pub enum DaxRefusal {
    /// No range can be taken: each one is moving by another guest, or has pins.
    #[error("no range can be taken")]
    Busy {
        /// A look at each range, in order of ranges.
        looked: List<Look>,
    },
    /// A request was answered with an error.
    #[error("error {number}")]
    Errno {
        /// The error's number, from 1 to 4095.
        number: i32,
    },
    /// What was received for a request is no reply to it; or it is a success, and the window hasn't what
    /// was asked for.
    #[error("no reply to the request")]
    BadReply {
        /// The bytes received.
        bytes: Blob,
    },
    /// The wire failed.
    #[error("the wire failed")]
    WireFault,
    /// An allocation was refused. A request may have been carried out.
    #[error("out of memory")]
    Memory,
}
