ghost use Rattle.std.specs.Prelude.{◌≡◌, ◌≤◌, ◌<◌, ◌^◌, length, Ok, Some, None, Err, IfOk, OnOk};
ghost use Rattle.plain_file.specs.Limits.{max_part};
ghost use Rattle.vring.specs.Layout.{IsLayout};
ghost use Rattle.vring.specs.Chain.{ChainLiesIn, chain_at};
ghost use Rattle.dax_device.specs.Answers.{IsAnswer};
ghost use Rattle.dax_device.specs.Queues.{offered, answered, answer_to, readable_in, Advances};

use crate::devices::Device;
use plain_file::{Blob, Memory};
use std::alloc::Global;
use std::marker::Model;
use vring::{Chain, GuestMem, PopError, Ring, RingFault, gather_into, scatter};

/// The device behind a virtqueue: the device itself, the guest's memory, and the ring in it. Contracts see the device with its boards, the memory's bytes, and the
/// ring.
#[derive(Debug, Drop)]
pub struct QueueDevice {
    device: Device,
    memory: GuestMem,
    ring: Ring,
}

/// What came of the turn for one chain.
#[derive(Debug, Drop)]
pub enum Turn {
    /// A chain was served, and this went into its writable part: a reply to its request, or no bytes.
    Served(Blob),
    /// There was none.
    Idle,
    /// What stands in the memory is no chain.
    Fault(RingFault),
}

impl Model for QueueDevice {
    ghost use Rattle.std.specs.Prelude.{◌≡◌, length};
    ghost use Rattle.vring.specs.Layout.{IsLayout};
    ghost use Rattle.dax_device.specs.Queues.{DeviceView};

    ghost Value = { DeviceView };

    ghost view = { λ d. record { world = d.device; memory = d.memory; ring = d.ring } };

    ghost invariant = { λ d. IsLayout d.ring.layout × (length d.memory ≡ d.ring.layout.memory) };
}

impl QueueDevice {
    /// The device of these parts. The memory is as long as the one that the ring was made with.
    pub fn new(device: Device, memory: GuestMem, ring: Ring) -> QueueDevice
        requires layout { IsLayout ring.layout }
        requires memory { length memory ≡ ring.layout.memory }
        ensures { result ≡ record { world = device; memory = memory; ring = ring } }
    {
        QueueDevice {
            device,
            memory,
            ring,
        }
    }

    /// The guest's memory.
    pub fn memory(&self) -> &GuestMem
        ensures { result.now ≡ self.now.memory }
    {
        &self.memory
    }

    /// How many chains are offered now: so far is the available index in the memory ahead of the seen
    /// one, modulo 2^16.
    pub fn offered(&self) -> u16
        ensures { result ≡ offered self.now }
    {
        self.ring.offered(&self.memory)
    }

    // Answers a chain that was popped, whose readable bytes these are.
    fn answer(&mut self, alloc: Global, chain: &Chain, readable: &[u8]) -> Result<Blob, Memory>
        requires lies { ChainLiesIn (length self.old.memory) chain.now }
        requires readable { readable.now ≡ readable_in self.old chain.now }
        requires within { length readable.now ≤ max_part }
        ensures answer { IfOk result (λ b. b ≡ answer_to self.old chain.now) }
        ensures len { IfOk result (λ b. length b ≤ max_part) }
        ensures device { OnOk result (self.new ≡ answered self.old chain.now) }
        ensures reply { IfOk result (IsAnswer readable.now) }
    {
        let room = chain.writable.sum() as u32;
        let answer = self.device.reply(alloc, readable, room)?;
        let len = scatter(&mut self.memory, chain, answer.as_slice()).unwrap();
        self.ring.push_used(&mut self.memory, chain.head, len);
        Ok(answer)
    }

    // Puts the readable bytes of a chain that was popped in place of these.
    #[tactic(auto, using(crate::proofs::DeviceAnswers::gathered_within))]
    fn gather(&self, chain: &Chain, readable: &mut Vec<u8>) -> Result<(), Memory>
        requires lies { ChainLiesIn (length self.now.memory) chain.now }
        ensures readable { OnOk result (readable.new.items ≡ readable_in self.now chain.now) }
        ensures within { OnOk result (length readable.new.items ≤ max_part) }
    {
        readable.clear();
        gather_into(&self.memory, chain, readable)
    }

    /// Serves the next chain, where there is one. The chain and its readable bytes then stand in `chain`
    /// and `readable`, whose room is used again from turn to turn.
    ///
    /// After a fault, and where there is no chain, the device is as it was. After `Memory`, which comes
    /// where an allocation was refused, nothing is known of it.
    pub fn serve_next(
        &mut self,
        alloc: Global,
        chain: &mut Chain,
        readable: &mut Vec<u8>,
    ) -> Result<Turn, Memory>
        ensures { IfOk result (λ turn. Advances self.old turn chain.new readable.new.items self.new) }
    {
        match self.ring.pop_into(&self.memory, chain) {
            Ok(true) => {}
            Ok(false) => return Ok(Turn::Idle),
            Err(PopError::Fault(fault)) => return Ok(Turn::Fault(fault)),
            Err(PopError::Memory) => return Err(Memory),
        }
        self.gather(chain, readable)?;
        let answer = self.answer(alloc, chain, readable)?;
        Ok(Turn::Served(answer))
    }
}
