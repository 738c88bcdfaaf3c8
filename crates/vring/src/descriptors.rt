ghost use Rattle.std.specs.Prelude.{◌≡◌, ◌+◌, ◌<◌, length, true, None};
ghost use Rattle.vring.specs.Layout.{IsLayout};
ghost use Rattle.vring.specs.Chain.{descriptor_at, fault_of, has, LiesIn};
ghost use Rattle.vring.specs.Spelling.{descriptor_bytes};

use crate::faults::RingFault;
use crate::layouts::Layout;
use crate::memory::is_within;
use crate::numbers::{read_u16, read_u32, read_u64};

/// The flag by which a chain goes on at `next` (VIRTQ_DESC_F_NEXT).
pub(crate) const NEXT: u16 = 1;

/// The flag of an interval that the device writes; it reads the others (VIRTQ_DESC_F_WRITE).
pub(crate) const WRITE: u16 = 2;

/// The flag of an interval that holds descriptors (VIRTQ_DESC_F_INDIRECT).
pub(crate) const INDIRECT: u16 = 4;

/// A descriptor as it stands in the descriptor table, in 16 bytes (VIRTIO 1.2 section 2.7.5).
#[derive(Clone, Copy, Debug, PartialEq, Eq)]
pub struct Descriptor {
    /// The address of the interval.
    pub addr: u64,
    /// Its length in bytes.
    pub len: u32,
    /// Bits of which NEXT, WRITE and INDIRECT have a meaning; the others are ignored.
    pub flags: u16,
    /// The index of the chain's next descriptor, where `flags` has NEXT.
    pub next: u16,
}

impl Descriptor {
    /// The descriptor's bytes, all numbers little-endian.
    #[tactic(auto, unfolding(crate::specs::Spelling::descriptor_bytes))]
    pub(crate) fn to_bytes(&self) -> [u8; 16]
        ensures { result ≡ descriptor_bytes self.now }
    {
        let a = self.addr.to_le_bytes();
        let l = self.len.to_le_bytes();
        let f = self.flags.to_le_bytes();
        let n = self.next.to_le_bytes();
        [
            a[0], a[1], a[2], a[3], a[4], a[5], a[6], a[7], l[0], l[1], l[2], l[3], f[0], f[1],
            n[0], n[1],
        ]
    }
}

// The descriptor at an index of the table.
#[tactic(auto, unfolding(crate::specs::Chain::descriptor_at))]
pub(crate) fn read_descriptor(mem: &[u8], layout: &Layout, index: u16) -> Descriptor
    requires layout { IsLayout layout.now }
    requires memory { length mem.now ≡ layout.now.memory }
    requires index { index < layout.now.size }
    ensures { result ≡ descriptor_at mem.now layout.now index }
{
    let at = layout.descriptors + 16 * index as usize;
    Descriptor {
        addr: read_u64(mem, at),
        len: read_u32(mem, at + 8),
        flags: read_u16(mem, at + 12),
        next: read_u16(mem, at + 14),
    }
}

// The first check of a descriptor that fails, where a writable one stood before it or not.
#[tactic(auto, unfolding(crate::specs::Chain::fault_of))]
pub(crate) fn fault_in(
    memory: usize,
    size: u16,
    written: bool,
    index: u16,
    descriptor: &Descriptor,
) -> Option<RingFault>
    ensures value { result ≡ fault_of memory size written index descriptor.now }
    ensures within { result ≡ None → LiesIn memory (record { addr = descriptor.now.addr; len = descriptor.now.len }) }
    ensures next { result ≡ None → has descriptor.now.flags 1 ≡ true → descriptor.now.next < size }
{
    let Descriptor {
        addr,
        len,
        flags,
        next,
    } = *descriptor;
    if flags & INDIRECT != 0 {
        return Some(RingFault::Indirect { index });
    }
    if written && flags & WRITE == 0 {
        return Some(RingFault::Order { index });
    }
    if !is_within(memory, addr, len as usize) {
        return Some(RingFault::Outside { addr, len });
    }
    if flags & NEXT != 0 && next >= size {
        return Some(RingFault::BadIndex { index: next });
    }
    None
}
