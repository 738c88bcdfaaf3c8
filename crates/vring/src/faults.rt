ghost use Rattle.std.specs.Prelude.{◌≡◌};

use plain_file::Memory;
use std::alloc::{AllocError, AllocFailed};
use thiserror::Error;

/// An interval that doesn't lie in the memory: its end, `addr` plus the length, is above the
/// memory's length. Nothing was read or written.
#[derive(Clone, Copy, Debug, PartialEq, Eq, Error)]
#[error("{len} bytes at {addr} are outside the memory")]
pub struct Outside {
    /// The address of the first byte.
    pub addr: u64,
    /// The length in bytes; `u32::MAX` for a longer one.
    pub len: u32,
}

/// More bytes than a chain's writable pieces take. Nothing was written.
#[derive(Clone, Copy, Debug, PartialEq, Eq, Error)]
#[error("the chain has room for {room} bytes")]
pub struct NoRoom {
    /// The sum of the writable pieces' lengths, in bytes.
    pub room: u64,
}

/// What is wrong with the rings or the descriptors in a memory, where a chain was to be popped.
///
/// A driver that keeps to VIRTIO 1.2 section 2.7 makes none of them, except that this device offers
/// no indirect descriptors (VIRTIO_F_INDIRECT_DESC isn't negotiated) and takes at most
/// [`MAX_PART`](crate::MAX_PART) bytes a part. They are checked in this order: `Jump`, `BadIndex` of
/// the head, then for each descriptor along the chain `Loop`, `Indirect`, `Order`, `Outside`,
/// `BadIndex` of its `next`, and at the chain's end `Long`.
#[derive(Clone, Copy, Debug, PartialEq, Eq, Error)]
pub enum RingFault {
    /// The available index is `behind` ahead of the seen one, modulo 2^16, which is more than the
    /// queue size.
    #[error("the available index is {behind} ahead")]
    Jump { behind: u16 },
    /// The available ring's entry, or the `next` of a descriptor with NEXT, is `index`, which isn't
    /// below the queue size.
    #[error("there is no descriptor {index}")]
    BadIndex { index: u16 },
    /// The chain has more descriptors than the queue, so one of them comes again.
    #[error("the chain doesn't end")]
    Loop,
    /// Descriptor `index` has INDIRECT.
    #[error("descriptor {index} is indirect")]
    Indirect { index: u16 },
    /// Descriptor `index` is readable, and stands behind a writable one.
    #[error("descriptor {index} is readable behind a writable one")]
    Order { index: u16 },
    /// A descriptor's interval, `len` bytes from `addr` on, doesn't lie in the memory.
    #[error("{len} bytes at {addr} are outside the memory")]
    Outside { addr: u64, len: u32 },
    /// The lengths of the readable pieces, or of the writable ones, have the sum `sum`, which is
    /// above [`MAX_PART`](crate::MAX_PART).
    #[error("a part of {sum} bytes is too long")]
    Long { sum: u64 },
}

/// Why a chain wasn't popped. The ring is as it was.
#[derive(Clone, Copy, Debug, PartialEq, Eq, Error)]
pub enum PopError {
    /// What stands in the memory is no chain.
    #[error("{0}")]
    Fault(RingFault),
    /// An allocation was refused. It says nothing of the chain.
    #[error("out of memory")]
    Memory,
}

impl From<AllocError> for PopError {
    ghost use Rattle.vring.specs.declared.faults.PopError.TheVariants as errors;

    ghost from_gives = { λ _ e. e ≡ errors.Memory };

    fn from(_: AllocError) -> PopError {
        PopError::Memory
    }
}

impl<T: Drop> From<AllocFailed<T>> for PopError {
    ghost use Rattle.vring.specs.declared.faults.PopError.TheVariants as errors;

    ghost from_gives = { λ _ e. e ≡ errors.Memory };

    fn from(_: AllocFailed<T>) -> PopError {
        PopError::Memory
    }
}

impl From<Memory> for PopError {
    ghost use Rattle.vring.specs.declared.faults.PopError.TheVariants as errors;

    ghost from_gives = { λ _ e. e ≡ errors.Memory };

    fn from(_: Memory) -> PopError {
        PopError::Memory
    }
}
