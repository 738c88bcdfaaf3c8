//! A whole device in one value: [`Device`] is a FUSE daemon with 16 files that it keeps in memory, and its
//! window. [`QueueDevice`] is the same behind a virtqueue in a guest's memory, which it serves chain by
//! chain; [`open_image`] finds both in a ring image.
//!
//! The definitions stand in `specs/`: `Devices` (a device at its start), `Answers` (its answers, read as
//! replies), `Queues` (what it makes of a queue's chains), `RingImage` (the device that an image stands
//! for).
#![tactic(auto)]

mod devices;
mod images;
mod queue_devices;

pub use devices::Device;
pub use images::open_image;
pub use queue_devices::{QueueDevice, Turn};
