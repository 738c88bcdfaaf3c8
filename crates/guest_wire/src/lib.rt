//! The guest's end of the wire of virtio-fs: a FUSE client (Linux uapi `fuse.h`, protocol 7.38).
//!
//! [`Driver`] is the client. Each of its calls sends one request with a number of its own, and knows by
//! the bytes that came back what was answered. A [`Wire`] carries the requests; it is *honest* where
//! it hands them to a daemon and brings back what the daemon answers. [`FakeWire`] answers what it
//! was told to, and [`KeepWire`] keeps the requests that it passes on to another wire: both are for
//! tests.
//!
//! What a wire means stands in `specs/Wires`, what boards keep whatever is submitted in `specs/Keeps`,
//! the requests in `specs/Requests`, and what bytes say to a request in `specs/Answers`: `heard` is the
//! reply that they are, and `Answers` what a call answers by it. `proofs/Serving` has laws for wires
//! that hand requests to a daemon, and for boards over which any request can be asked.
#![tactic(auto)]

mod driver;
mod fake;
mod file_calls;
mod keep;
mod replies;
mod session_calls;
#[cfg(test)]
mod tests;
mod window_calls;
mod wires;

pub use driver::{Driver, FileRef};
pub use fake::{FakeWire, WireStep};
pub use keep::KeepWire;
pub use wires::{Wire, WireError, WireRefusal};
