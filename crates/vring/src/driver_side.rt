ghost use Rattle.std.specs.Prelude.{◌≡◌, ◌+◌, ◌*◌, ◌^◌, ◌<◌, ◌≤◌, length, replicate, Some, None, IfOk};
ghost use Rattle.plain_file.specs.Limits.{max_part};
ghost use Rattle.vring.specs.Ring.{next_index};
ghost use Rattle.vring.specs.Driver.{DriverView, IsQueueSize, driver_layout, is_expected, offered_in, used_at, Takes, written_in};

use crate::descriptors::{Descriptor, NEXT, WRITE};
use crate::memory::GuestMem;
use crate::numbers::{read_u16, read_u32};
use plain_file::{Blob, Memory};
use std::alloc::Global;
use std::marker::Model;
use thiserror::Error;

/// A chain that the device handed back.
#[derive(Clone, Copy, Debug, PartialEq, Eq)]
pub struct Used {
    /// The index of its first descriptor, as it was offered.
    pub head: u16,
    /// How many bytes the device says that it wrote: at most the room that was offered.
    pub len: u32,
}

/// An entry of the used ring that isn't of the chain that is offered: `id` isn't its head, or `len`
/// is more bytes than its room, or no chain is offered. The driver's side is as it was.
#[derive(Clone, Copy, Debug, PartialEq, Eq, Error)]
#[error("the used entry of {id} with {len} bytes isn't of the chain that was offered")]
pub struct BadUsed {
    pub id: u32,
    pub len: u32,
}

/// The driver's side of a split virtqueue (VIRTIO 1.2 section 2.7), which has one chain offered at a
/// time.
///
/// Its memory has the descriptor table at 0, the available ring at 16 bytes a descriptor, the used
/// ring 8 bytes behind 20 a descriptor, and behind them `part` bytes of room for either part of a
/// chain, what the device reads before what it writes. The driver's side keeps two indices of its
/// own, both from 0 on and modulo 2^16: how many chains it offered, and how many it took back.
///
/// Every call wants a memory as long as the one that came with the ring. What stands in it may be
/// anything.
#[derive(Debug, Drop)]
pub struct DriverRing {
    size: u16,
    part: u32,
    offered: u16,
    taken: u16,
    room: Option<u32>,
}

impl Model for DriverRing {
    ghost use Rattle.std.specs.Prelude.{◌≤◌};
    ghost use Rattle.plain_file.specs.Limits.{max_part};
    ghost use Rattle.vring.specs.Driver.{DriverView, IsQueueSize};

    ghost Value = { DriverView };

    ghost view = { λ r. record { size = r.size; part = r.part; offered = r.offered; taken = r.taken; room = r.room } };

    ghost invariant = { λ r. IsQueueSize r.size × (r.part ≤ max_part) };
}

impl DriverRing {
    /// A ring of `size` descriptors, a power of two from 4 to 1,024, with `part` bytes of room for
    /// either part of a chain, at most [`MAX_PART`](crate::MAX_PART), and the memory in which it
    /// lies, all 0. Nothing is offered. `Memory` comes where the allocation was refused.
    pub fn new(alloc: Global, size: u16, part: u32) -> Result<(DriverRing, GuestMem), Memory>
        requires queue { IsQueueSize size }
        requires part { part ≤ max_part }
        ensures ring { IfOk result (λ p. p.0 ≡ record { size = size; part = part; offered = 0; taken = 0; room = None }) }
        ensures memory { IfOk result (λ p. p.1 ≡ replicate (driver_layout size part).memory 0) }
    {
        let len = 28 * size as usize + 16 + 2 * part as usize;
        let bytes = Blob::from_vec(vec![in alloc; 0u8; len]?);
        let ring = DriverRing {
            size,
            part,
            offered: 0,
            taken: 0,
            room: None,
        };
        Ok((ring, GuestMem::new(bytes)))
    }

    /// The addresses of the descriptor table, the available ring and the used ring, which the device
    /// is told.
    pub fn device(&self) -> (u64, u64, u64)
        ensures { let l = driver_layout self.now.size self.now.part in result ≡ (l.descriptors, l.available, l.used) }
    {
        let size = self.size as u64;
        (0, 16 * size, 20 * size + 8)
    }

    /// The queue size: how many descriptors there are.
    pub fn size(&self) -> u16
        ensures value { result ≡ self.now.size }
        ensures queue { IsQueueSize self.now.size }
    {
        self.size
    }

    /// The most bytes of either part of a chain, at most [`MAX_PART`](crate::MAX_PART).
    pub fn part(&self) -> u32
        ensures value { result ≡ self.now.part }
        ensures most { self.now.part ≤ max_part }
    {
        self.part
    }

    /// How many chains were offered, modulo 2^16.
    pub fn offered(&self) -> u16
        ensures value { result ≡ self.now.offered }
        ensures fits { self.now.offered < 2 ^ 16 }
    {
        self.offered
    }

    /// How many chains were taken back, modulo 2^16.
    pub fn taken(&self) -> u16
        ensures value { result ≡ self.now.taken }
        ensures fits { self.now.taken < 2 ^ 16 }
    {
        self.taken
    }

    /// The room of the chain that is offered; None where none is.
    pub fn room(&self) -> Option<u32>
        ensures { result ≡ self.now.room }
    {
        self.room
    }

    /// Offers the device a chain of two descriptors: one of these bytes to read, then one of `room`
    /// bytes to write. Gives its head, which is 0.
    ///
    /// The bytes, the two descriptors and the available ring's entry are written before the
    /// available index is raised (VIRTIO 1.2 section 2.7.13). No chain is offered that wasn't taken
    /// back, and each part has at most as many bytes as the ring has room for.
    #[tactic(auto, unfolding(crate::specs::Driver::offered_in))]
    pub fn offer(&mut self, mem: &mut GuestMem, readable: &[u8], room: u32) -> u16
        requires memory { length mem.old ≡ (driver_layout self.old.size self.old.part).memory }
        requires nothing { self.old.room ≡ None }
        requires readable { length readable.now ≤ self.old.part }
        requires room { room ≤ self.old.part }
        ensures head { result ≡ 0 }
        ensures memory { mem.new ≡ offered_in self.old mem.old readable.now room }
        ensures len { length mem.new ≡ length mem.old }
        ensures ring { self.new ≡ record self.old { offered = next_index self.old.offered; room = Some room } }
    {
        let size = self.size as usize;
        let readable_at = 28 * size + 16;
        let first = Descriptor {
            addr: readable_at as u64,
            len: readable.len() as u32,
            flags: NEXT,
            next: 1,
        };
        let second = Descriptor {
            addr: (readable_at + self.part as usize) as u64,
            len: room,
            flags: WRITE,
            next: 0,
        };
        let place = (self.offered % self.size) as usize;
        let next = self.offered.wrapping_add(1);
        mem.put(readable_at, readable);
        mem.put(0, &first.to_bytes());
        mem.put(16, &second.to_bytes());
        mem.put(16 * size + 4 + 2 * place, &0u16.to_le_bytes());
        mem.put(16 * size + 2, &next.to_le_bytes());
        self.offered = next;
        self.room = Some(room);
        0
    }

    /// Takes the offered chain back, if the device handed it back. None comes exactly where the used
    /// index in the memory is the number of chains that were taken back, modulo 2^16.
    ///
    /// `BadUsed` comes exactly where the used ring's entry at that number, modulo the size, isn't
    /// the offered head, or its length is above the room, or no chain is offered. After None or
    /// `BadUsed` the driver's side is as it was, so that the same call answers the same.
    pub fn take_used(&mut self, mem: &GuestMem) -> Result<Option<Used>, BadUsed>
        requires { length mem.now ≡ (driver_layout self.old.size self.old.part).memory }
        ensures { Takes self.old mem.now result self.new }
    {
        match next_used(mem.as_slice(), self.size, self.taken, self.room) {
            Ok(Some(used)) => {
                self.taken = self.taken.wrapping_add(1);
                self.room = None;
                Ok(Some(used))
            }
            Ok(None) => Ok(None),
            Err(e) => Err(e),
        }
    }

    /// The first `len` bytes of the room, of which there are as many as the most of a part: what the
    /// device wrote, where it is a [`Used`] chain's length.
    pub fn written<'a>(&self, mem: &'a GuestMem, len: u32) -> &'a [u8]
        requires memory { length mem.now ≡ (driver_layout self.now.size self.now.part).memory }
        requires len { len ≤ self.now.part }
        ensures { result.now ≡ written_in mem.now self.now.size self.now.part len }
    {
        let at = 28 * self.size as usize + 16 + self.part as usize;
        &mem.as_slice()[at..at + len as usize]
    }
}

// What stands in the used ring at the place of the next chain to be taken back.
#[tactic(auto, unfolding(crate::specs::Driver::used_at))]
fn next_used(mem: &[u8], size: u16, taken: u16, room: Option<u32>) -> Result<Option<Used>, BadUsed>
    requires size { IsQueueSize size }
    requires memory { 28 * size + 16 ≤ length mem.now }
    ensures { result ≡ used_at mem.now size taken room }
{
    let used = 20 * size as usize + 8;
    if read_u16(mem, used + 2) == taken {
        return Ok(None);
    }
    let at = used + 4 + 8 * (taken % size) as usize;
    let id = read_u32(mem, at);
    let len = read_u32(mem, at + 4);
    if is_expected(room, id, len) {
        return Ok(Some(Used { head: 0, len }));
    }
    Err(BadUsed { id, len })
}

// Whether an entry is of the chain that has this room.
fn is_expected(room: Option<u32>, id: u32, len: u32) -> bool
    ensures { result ≡ is_expected room id len }
{
    match room {
        None => false,
        Some(room) => id == 0 && len <= room,
    }
}
