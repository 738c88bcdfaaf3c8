ghost use Rattle.std.specs.Prelude.{◌≡◌, ◌+◌, ◌*◌, ◌%◌, ◌^◌, ◌<◌, ◌≤◌, ◌==◌, length, true, Ok, Some, None, IfOk, IfSome};
ghost use Rattle.vring.specs.Bytes.{u16_at, max_memory};
ghost use Rattle.vring.specs.Layout.{IsLayout};
ghost use Rattle.vring.specs.Chain.{ahead, chain_at, ChainLiesIn};
ghost use Rattle.vring.specs.Ring.{Finds, Pops, PopsInto, RingView, new_ring, next_index, used_pushed};

use crate::chains::Chain;
use crate::faults::{PopError, RingFault};
use crate::layouts::Layout;
use crate::memory::GuestMem;
use crate::numbers::read_u16;
use crate::walks::follow;
use std::alloc::Global;
use std::marker::Model;

/// The device's side of a split virtqueue (VIRTIO 1.2 section 2.7): it pops the chains that the
/// driver made available, and pushes them into the used ring.
///
/// It keeps two indices of its own, both from `start` on and modulo 2^16: the *seen* index, which
/// says how many chains it popped, and the *used* index, which says how many it pushed. It never
/// reads the used index from the memory, so nothing that a driver or a chain writes there moves it.
///
/// Every call wants a memory as long as the one that the ring was made with, which [`Ring::fits`]
/// tells. What stands in it may be anything.
#[derive(Debug, Drop)]
pub struct Ring {
    layout: Layout,
    seen: u16,
    used_index: u16,
}

impl Model for Ring {
    ghost use Rattle.vring.specs.Ring.{RingView};
    ghost use Rattle.vring.specs.Layout.{IsLayout};

    ghost Value = { RingView };

    ghost view = { λ r. record { layout = r.layout; seen = r.seen; used_index = r.used_index } };

    ghost invariant = { λ r. IsLayout r.layout };
}

// Makes `chain` the one that is to come, and says whether there is one.
#[tactic(auto, unfolding(crate::specs::Chain::chain_at), using(crate::proofs::Steps::chain_of_some))]
fn next_chain(mem: &[u8], layout: &Layout, seen: u16, chain: &mut Chain) -> Result<bool, PopError>
    requires layout { IsLayout layout.now }
    requires memory { length mem.now ≡ layout.now.memory }
    ensures { Finds result chain.new (chain_at mem.now layout.now seen) }
{
    let behind = read_u16(mem, layout.available + 2).wrapping_sub(seen);
    if behind == 0 {
        return Ok(false);
    }
    if behind > layout.size {
        return Err(PopError::Fault(RingFault::Jump { behind }));
    }
    let place = (seen % layout.size) as usize;
    let head = read_u16(mem, layout.available + 4 + 2 * place);
    if head >= layout.size {
        return Err(PopError::Fault(RingFault::BadIndex { index: head }));
    }
    follow(mem, layout, head, chain)?;
    Ok(true)
}

impl Ring {
    /// A ring of `size` descriptors whose two indices begin at `start`. `desc`, `avail` and `used`
    /// are the addresses of the descriptor table (16 bytes a descriptor), the available ring (6
    /// bytes and 2 a descriptor) and the used ring (6 bytes and 8 a descriptor).
    ///
    /// None comes exactly where the size isn't a power of two from 1 to 1,024, an area doesn't lie
    /// in the memory, two of them have a byte in common, or `desc` isn't a multiple of 16, `avail`
    /// of 2 or `used` of 4. The memory isn't looked into.
    pub fn new(
        size: u16,
        start: u16,
        desc: u64,
        avail: u64,
        used: u64,
        mem: &GuestMem,
    ) -> Option<Ring>
        ensures ring { result ≡ new_ring (record { size = size; descriptors = desc; available = avail; used = used; memory = length mem.now }) start }
        ensures memory { IfSome result (λ r. r.layout.memory ≡ length mem.now) }
    {
        let memory = mem.len();
        let limit = memory as u64;
        if desc > limit || avail > limit || used > limit {
            return None;
        }
        let layout = Layout {
            size,
            descriptors: desc as usize,
            available: avail as usize,
            used: used as usize,
            memory,
        };
        if !layout.is_allowed() {
            return None;
        }
        Some(Ring {
            layout,
            seen: start,
            used_index: start,
        })
    }

    /// How many chains were popped, from `start` on and modulo 2^16.
    pub fn seen(&self) -> u16
        ensures value { result ≡ self.now.seen }
        ensures fits { self.now.seen < 2 ^ 16 }
    {
        self.seen
    }

    /// How many chains are offered now: so far is the available index in the memory ahead of the seen
    /// one, modulo 2^16. It may be more than the ring has places, where [`Ring::pop`] finds a fault.
    pub fn offered(&self, mem: &GuestMem) -> u16
        requires { length mem.now ≡ self.now.layout.memory }
        ensures { result ≡ ahead (u16_at mem.now (self.now.layout.available + 2)) self.now.seen }
    {
        read_u16(mem.as_slice(), self.layout.available + 2).wrapping_sub(self.seen)
    }

    /// How many chains were pushed, from `start` on and modulo 2^16.
    pub fn used_index(&self) -> u16
        ensures value { result ≡ self.now.used_index }
        ensures fits { self.now.used_index < 2 ^ 16 }
    {
        self.used_index
    }

    /// Whether a memory is as long as the one that the ring was made with. The memory isn't looked
    /// into.
    pub fn fits(&self, mem: &GuestMem) -> bool
        ensures { result ≡ (length mem.now == self.now.layout.memory) }
    {
        mem.len() == self.layout.memory
    }

    /// Takes the next chain that the driver made available. None comes exactly where the available
    /// index is the seen one. A chain raises the seen index by 1, modulo 2^16; its pieces lie in the
    /// memory, and neither part has more than [`MAX_PART`](crate::MAX_PART) bytes.
    ///
    /// A fault is the first one of what stands in the memory, in the order that [`RingFault`] gives.
    /// `Memory` comes where an allocation was refused, which happens only for a part of more than
    /// eight pieces, so never where the available index is the seen one. After either the ring is as
    /// it was, so that the same call answers the same.
    pub fn pop(&mut self, alloc: Global, mem: &GuestMem) -> Result<Option<Chain>, PopError>
        requires { length mem.now ≡ self.old.layout.memory }
        ensures pops { Pops self.old mem.now result self.new }
        ensures lies { IfOk result (λ o. IfSome o (ChainLiesIn (length mem.now))) }
    {
        let mut chain = Chain::new(alloc);
        match self.pop_into(mem, &mut chain) {
            Ok(true) => Ok(Some(chain)),
            Ok(false) => Ok(None),
            Err(e) => Err(e),
        }
    }

    /// The same as [`Ring::pop`], into `chain`, whose old pieces are taken away and whose room is
    /// used again: so one value serves chain after chain, and no chain is moved. The answer says
    /// whether there is a chain. Where there is none, and after an error, nothing is said of `chain`.
    pub fn pop_into(&mut self, mem: &GuestMem, chain: &mut Chain) -> Result<bool, PopError>
        requires { length mem.now ≡ self.old.layout.memory }
        ensures pops { PopsInto self.old mem.now result chain.new self.new }
        ensures lies { result ≡ Ok true → ChainLiesIn (length mem.now) chain.new }
    {
        match next_chain(mem.as_slice(), &self.layout, self.seen, chain) {
            Ok(true) => {
                self.seen = self.seen.wrapping_add(1);
                Ok(true)
            }
            Ok(false) => Ok(false),
            Err(e) => Err(e),
        }
    }

    /// Hands a chain back to the driver: writes its `head` and the number of bytes that were written
    /// into its writable pieces into the used ring's entry at the used index, modulo the size, then
    /// raises the used index in the memory and here by 1, modulo 2^16.
    ///
    /// The head is that of a chain that was popped and not pushed since.
    pub fn push_used(&mut self, mem: &mut GuestMem, head: u16, len: u32)
        requires { length mem.old ≡ self.old.layout.memory }
        ensures memory { mem.new ≡ used_pushed self.old mem.old head len }
        ensures len { length mem.new ≡ length mem.old }
        ensures ring { self.new ≡ record self.old { used_index = next_index self.old.used_index } }
    {
        let used = self.layout.used;
        let place = (self.used_index % self.layout.size) as usize;
        let next = self.used_index.wrapping_add(1);
        let h = (head as u32).to_le_bytes();
        let n = len.to_le_bytes();
        let entry = [h[0], h[1], h[2], h[3], n[0], n[1], n[2], n[3]];
        mem.put(used + 4 + 8 * place, &entry);
        mem.put(used + 2, &next.to_le_bytes());
        self.used_index = next;
    }
}
