//! A split virtqueue, both sides, over a guest's memory: VIRTIO 1.2 section 2.7.
//!
//! [`Ring`] is the device's side. It pops a [`Chain`] of descriptors, whose readable bytes
//! [`gather`] gives and into whose writable pieces [`scatter`] writes, and pushes it into the used
//! ring. Whatever stands in the memory, each call returns, and what is no chain is a [`RingFault`].
//! [`DriverRing`] is the driver's side, which makes the memory, offers one chain at a time and takes
//! it back. That each side reads what the other writes is said by laws, as [`offered_is_popped`]:
//! functions that do nothing, whose clauses a caller has as facts.
//!
//! What the bytes of a memory mean stands in `specs/`: `Layout` says where the areas may lie,
//! `Chain` which chain or which fault stands in a memory, `Pieces` what is gathered and scattered,
//! `Ring` and `Driver` what the calls of each side do, `BothSides` what the laws say.
#![tactic(auto)]

mod chains;
mod descriptors;
mod device_side;
mod driver_side;
mod faults;
mod laws;
mod layouts;
mod memory;
mod numbers;
#[cfg(test)]
mod tests;
mod transfers;
mod walks;

pub use chains::{Chain, Piece, Pieces};
pub use device_side::Ring;
pub use driver_side::{BadUsed, DriverRing, Used};
pub use faults::{NoRoom, Outside, PopError, RingFault};
pub use laws::{
    driver_areas_are_allowed, offered_is_gathered, offered_is_popped,
    powers_of_two_are_queue_sizes, pushed_is_taken, room_is_offered, scattered_is_written,
};
pub use memory::GuestMem;
pub use plain_file::MAX_PART;
pub use transfers::{gather, gather_into, scatter};
