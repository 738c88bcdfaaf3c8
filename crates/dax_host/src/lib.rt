//! The wires between a guest and its daemon, through a split virtqueue (VIRTIO 1.2 section 2.7).
//!
//! Each hands a request to a daemon in the caller's thread: the driver's side of the queue offers it,
//! the device's side pops the chain and gathers its bytes, the daemon serves them, and the answer goes
//! back by the room of the chain. They are honest, and never fail: that what one side writes is what the
//! other reads is a law of the queue.
//!
//! [`SoloWire`] has the whole daemon for itself. [`HostWire`] borrows one that stays as it is: many
//! guests' wires stand over it, each with a queue of its own, and each request is served in the turn of
//! the file that it names.
//!
//! `specs/Queue` says how far a request has come through the queue, and what it leaves there;
//! `specs/Rounds` what each side reads then; `specs/Carrying` what comes of a request, of the queue and
//! of the device together, and `specs/InTurn` the same where the daemon stays; `specs/Solo` and
//! `specs/Host` what the wires mean.
#![tactic(auto)]

mod host;
#[cfg(test)]
mod host_tests;
mod laws;
mod queue;
#[cfg(test)]
mod shared_boards;
#[cfg(test)]
mod shared_tests;
mod solo;
#[cfg(test)]
mod tests;
mod transport;
mod turns;

pub use host::HostWire;
pub use laws::requests_go_through;
pub use solo::SoloWire;
