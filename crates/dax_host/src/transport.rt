ghost use Rattle.std.specs.Prelude.{◌≡◌, ◌≤◌, ℕ, false, length, IfOk, OnOk, OnErr, Ok};
ghost use Rattle.plain_file.specs.Limits.{max_part};
ghost use Rattle.vring.specs.Chain.{ChainLiesIn};
ghost use Rattle.vring.specs.Driver.{IsQueueSize, driver_layout, offered_room};
ghost use Rattle.dax_host.specs.Queue.{IsIdle, IsOffered, IsDelivered, IsNotBrought, fresh_queue, takes, part_for, queue_for, after_offer, after_pop, after_answer, after_return, given_up};

use plain_file::{Blob, Memory};
use std::alloc::Global;
use std::marker::Model;
use vring::{
    Chain, DriverRing, GuestMem, MAX_PART, PopError, Ring, driver_areas_are_allowed, gather_into,
    offered_is_gathered, offered_is_popped, room_is_offered, scatter,
};

// Both sides of a queue, and the memory in which it lies.
#[derive(Debug, Drop)]
pub(crate) struct Sides {
    driver: DriverRing,
    ring: Ring,
    memory: GuestMem,
}

impl Model for Sides {
    ghost use Rattle.dax_host.specs.Queue.{QueueView};

    ghost Value = { QueueView };

    ghost view = { λ s. record { driver = s.driver; ring = s.ring; memory = s.memory } };
}

// Whether so many bytes of either part take both parts of a request.
fn takes(part: u32, len: usize, room: u32) -> bool
    ensures { result ≡ takes part len room }
{
    len <= part as usize && room <= part
}

// How many bytes of either part a queue has room for that takes both parts of a request.
#[tactic(auto, unfolding(crate::specs::Queue::part_for))]
fn part_for(len: usize, room: u32) -> u32
    requires len { len ≤ max_part }
    requires room { room ≤ max_part }
    ensures value { result ≡ part_for len room }
    ensures most { result ≤ max_part }
    ensures len { len ≤ result }
    ensures room { room ≤ result }
{
    if takes(8_192, len, room) {
        8_192
    } else if takes(65_536, len, room) {
        65_536
    } else {
        MAX_PART
    }
}

// The device's side of a driver's ring, which has seen and pushed as many chains as `start` says.
fn device_of(driver: &DriverRing, start: u16, memory: &GuestMem) -> Ring
    requires { length memory.now ≡ (driver_layout driver.now.size driver.now.part).memory }
    ensures { result ≡ record { layout = driver_layout driver.now.size driver.now.part; seen = start; used_index = start } }
{
    driver_areas_are_allowed();
    let (descriptors, available, used) = driver.device();
    Ring::new(driver.size(), start, descriptors, available, used, memory).unwrap()
}

impl Sides {
    // A queue of so many descriptors, with room for so many bytes of either part, in which nothing was
    // offered.
    #[tactic(auto, unfolding(crate::specs::Queue::fresh_queue))]
    pub(crate) fn new(alloc: Global, size: u16, part: u32) -> Result<Sides, Memory>
        requires queue { IsQueueSize size }
        requires part { part ≤ max_part }
        ensures part { IfOk result (λ q. q.driver.part ≡ part) }
        ensures fresh { IfOk result (λ q. q ≡ fresh_queue size part) }
        ensures idle { IfOk result (λ q. IsIdle q) }
    {
        let (driver, memory) = DriverRing::new(alloc, size, part)?;
        let ring = device_of(&driver, 0, &memory);
        Ok(Sides {
            driver,
            ring,
            memory,
        })
    }

    // A queue of so many descriptors for both parts of a request, in which nothing was offered.
    fn for_parts(alloc: Global, size: u16, len: usize, room: u32) -> Result<Sides, Memory>
        requires queue { IsQueueSize size }
        requires len { len ≤ max_part }
        requires room { room ≤ max_part }
        ensures fresh { IfOk result (λ q. q ≡ fresh_queue size (part_for len room)) }
        ensures len { IfOk result (λ q. len ≤ q.driver.part) }
        ensures room { IfOk result (λ q. room ≤ q.driver.part) }
        ensures idle { IfOk result (λ q. IsIdle q) }
    {
        let part = part_for(len, room);
        Sides::new(alloc, size, part)
    }

    // Makes room for both parts of a request: a queue with more of it, where this one doesn't take them.
    #[tactic(auto, unfolding(crate::specs::Queue::queue_for))]
    fn make_room(&mut self, alloc: Global, len: usize, room: u32) -> Result<(), Memory>
        requires idle { IsIdle self.old }
        requires len { len ≤ max_part }
        requires room { room ≤ max_part }
        ensures ok { OnOk result (self.new ≡ queue_for self.old len room) }
        ensures len { OnOk result (len ≤ self.new.driver.part) }
        ensures room { OnOk result (room ≤ self.new.driver.part) }
        ensures err { OnErr result (self.new ≡ self.old) }
        ensures small { OnErr result (takes self.old.driver.part len room ≡ false) }
        ensures idle { IsIdle self.new }
    {
        if takes(self.driver.part(), len, room) {
            return Ok(());
        }
        *self = Sides::for_parts(alloc, self.driver.size(), len, room)?;
        Ok(())
    }

    // Offers a request, pops it and gathers its bytes. After an error the device has seen it or not.
    fn fetch(
        &mut self,
        chain: &mut Chain,
        bytes: &mut Vec<u8>,
        readable: &[u8],
        room: u32,
    ) -> Result<(), Memory>
        requires idle { IsIdle self.old }
        requires readable { length readable.now ≤ self.old.driver.part }
        requires room { room ≤ self.old.driver.part }
        ensures ok { OnOk result (IsDelivered self.new room chain.new) }
        ensures bytes { OnOk result (bytes.new.items ≡ readable.now) }
        ensures popped { OnOk result (self.new ≡ after_pop (after_offer self.old readable.now room)) }
        // whether it was seen or not
        ensures offered { record self.new { ring = record self.new.ring { seen = self.old.ring.seen } }
            ≡ after_offer self.old readable.now room }
        ensures out { IsOffered self.new room }
    {
        self.driver.size();
        self.driver.part();
        self.driver.offered();
        offered_is_popped();
        offered_is_gathered();
        self.driver.offer(&mut self.memory, readable, room);
        match self.ring.pop_into(&self.memory, chain) {
            Ok(true) => {
                bytes.clear();
                gather_into(&self.memory, chain, bytes)
            }
            Err(PopError::Memory) => Err(Memory),
            Ok(false) | Err(PopError::Fault(_)) => unreachable!(),
        }
    }

    // Hands a request back with so many bytes written, and takes it back.
    fn push(&mut self, len: u32, room: u32)
        requires out { IsOffered self.old room }
        requires room { room ≤ self.old.driver.part }
        requires fits { len ≤ room }
        ensures queue { self.new ≡ after_return self.old len }
        ensures len { length self.new.memory ≡ length self.old.memory }
    {
        self.driver.size();
        self.ring.used_index();
        self.ring.push_used(&mut self.memory, 0, len);
        match self.driver.take_used(&self.memory) {
            Ok(Some(_)) => {}
            Ok(None) | Err(_) => unreachable!(),
        }
    }

    // Hands a request back that wasn't served; the device begins again behind it.
    fn give_up(&mut self, room: u32)
        requires out { IsOffered self.old room }
        requires room { room ≤ self.old.driver.part }
        ensures queue { self.new ≡ after_return
            (record self.old { ring = record self.old.ring { seen = self.old.driver.offered } }) 0 }
        ensures idle { IsIdle self.new }
    {
        self.push(0, room);
        self.ring = device_of(&self.driver, self.driver.offered(), &self.memory);
    }

    // Brings a request to the device.
    #[tactic(auto, unfolding(crate::specs::Queue::given_up))]
    fn deliver(
        &mut self,
        chain: &mut Chain,
        bytes: &mut Vec<u8>,
        readable: &[u8],
        room: u32,
    ) -> Result<(), Memory>
        requires idle { IsIdle self.old }
        requires readable { length readable.now ≤ self.old.driver.part }
        requires room { room ≤ self.old.driver.part }
        ensures ok { OnOk result (IsDelivered self.new room chain.new) }
        ensures bytes { OnOk result (bytes.new.items ≡ readable.now) }
        ensures popped { OnOk result (self.new ≡ after_pop (after_offer self.old readable.now room)) }
        ensures err { OnErr result (self.new ≡ given_up self.old readable.now room) }
        ensures idle { OnErr result (IsIdle self.new) }
    {
        let fetched = self.fetch(chain, bytes, readable, room);
        if fetched.is_err() {
            self.give_up(room);
        }
        fetched
    }

    // Writes the answer into the room of the chain.
    fn put_answer(&mut self, chain: &Chain, bytes: &[u8], room: u32) -> u32
        requires lies { ChainLiesIn (length self.old.memory) chain.now }
        requires room { chain.now.writable ≡ offered_room self.old.driver.size self.old.driver.part room }
        requires fits { length bytes.now ≤ room }
        ensures queue { self.new ≡ after_answer self.old room bytes.now }
        ensures len { length self.new.memory ≡ length self.old.memory }
        ensures count { result ≡ length bytes.now }
    {
        room_is_offered();
        scatter(&mut self.memory, chain, bytes).unwrap()
    }

    // Brings the answer to the driver, which reads it into the buffer that it came in.
    fn answer(&mut self, chain: &Chain, bytes: Blob, room: u32) -> Result<Blob, Memory>
        requires delivered { IsDelivered self.old room chain.now }
        requires room { room ≤ self.old.driver.part }
        requires fits { length bytes ≤ room }
        ensures bytes { IfOk result (λ b. b ≡ bytes) }
        ensures queue { self.new ≡ after_return (after_answer self.old room bytes) (length bytes) }
        ensures idle { IsIdle self.new }
    {
        let len = self.put_answer(chain, bytes.as_slice(), room);
        self.push(len, room);
        let mut read = bytes.into_vec();
        read.clear();
        read.extend_from_slice(self.driver.written(&self.memory, len))?;
        Ok(Blob::from_vec(read))
    }

    // Makes room for a request and brings it to the device. Tells how much room its chain has.
    pub(crate) fn bring(
        &mut self,
        alloc: Global,
        chain: &mut Chain,
        bytes: &mut Vec<u8>,
        readable: &[u8],
        room: u32,
    ) -> Result<u32, Memory>
        requires idle { IsIdle self.old }
        requires len { length readable.now ≤ max_part }
        requires room { room ≤ max_part }
        ensures room { IfOk result (λ r. r ≡ room) }
        ensures part { OnOk result (room ≤ self.new.driver.part) }
        ensures ok { OnOk result (IsDelivered self.new room chain.new) }
        ensures bytes { OnOk result (bytes.new.items ≡ readable.now) }
        ensures popped { OnOk result (self.new ≡ after_pop (after_offer (queue_for self.old (length readable.now) room) readable.now room)) }
        ensures err { OnErr result (IsNotBrought self.old readable.now room self.new) }
        ensures idle { OnErr result (IsIdle self.new) }
    {
        self.make_room(alloc, readable.len(), room)?;
        self.deliver(chain, bytes, readable, room)?;
        Ok(room_in(chain))
    }

    // Brings the device's answer back, or takes the request back where there is none.
    pub(crate) fn bring_back(
        &mut self,
        chain: &Chain,
        answer: Result<Blob, Memory>,
        room: u32,
    ) -> Result<Blob, Memory>
        requires delivered { IsDelivered self.old room chain.now }
        requires room { room ≤ self.old.driver.part }
        requires fits { IfOk answer (λ b. length b ≤ room) }
        ensures bytes { IfOk result (λ b. answer ≡ Ok b) }
        ensures ok { IfOk answer (λ b. self.new ≡ after_return (after_answer self.old room b) (length b)) }
        ensures err { OnErr answer (self.new ≡ after_return self.old 0) }
        ensures idle { IsIdle self.new }
    {
        match answer {
            Ok(bytes) => self.answer(chain, bytes, room),
            Err(memory) => {
                self.give_up(room);
                Err(memory)
            }
        }
    }
}

// How much room a delivered chain has.
fn room_in(chain: &Chain) -> u32
    ensures { (size part room : ℕ) → chain.now.writable ≡ offered_room size part room → room ≤ max_part → result ≡ room }
{
    room_is_offered();
    chain.writable.sum().min(MAX_PART as u64) as u32
}
