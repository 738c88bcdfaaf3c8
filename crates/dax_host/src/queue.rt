ghost use Rattle.std.specs.Prelude.{◌≡◌, ◌≤◌, length, IfOk};
ghost use Rattle.plain_file.specs.Limits.{max_part};
ghost use Rattle.fuse_device.specs.Promises.{CanStep, world};
ghost use Rattle.guest_wire.specs.Wires.{boards, sending, CanShare};
ghost use Rattle.dax_host.specs.Queue.{fresh_queue};
ghost use Rattle.dax_host.specs.Carrying.{host, Carries};
ghost use Rattle.dax_host.specs.InTurn.{CarriesInTurn};

use crate::transport::Sides;
use crate::turns::serve_in_turn;
use daemon_core::Daemon;
use guest_wire::WireError;
use page_map::MapBoard;
use plain_file::{Blob, FileBoard, FileTurns, Memory};
use std::alloc::Global;
use std::marker::Model;
use std::sync::Wait;
use vring::{Chain, powers_of_two_are_queue_sizes};

// How many descriptors the queue has. A request takes two of them.
const SIZE: u16 = 4;

// How many bytes of room either part of a request has at first.
const PART: u32 = 8192;

// A queue for one request at a time, between two requests.
#[derive(Debug, Drop)]
pub(crate) struct Queue {
    sides: Sides,
    // the chain that the device popped last, and its readable bytes
    chain: Chain,
    readable: Vec<u8>,
}

impl Model for Queue {
    ghost use Rattle.dax_host.specs.Queue.{QueueView, IsIdle};

    ghost Value = { QueueView };

    ghost view = { λ q. q.sides };

    ghost invariant = { λ q. IsIdle q.sides };
}

impl Queue {
    // A queue in which nothing was offered.
    pub(crate) fn new(alloc: Global) -> Result<Queue, Memory>
        ensures { IfOk result (λ q. q ≡ fresh_queue 4 8192) }
    {
        powers_of_two_are_queue_sizes();
        Ok(Queue {
            sides: Sides::new(alloc, SIZE, PART)?,
            chain: Chain::new(alloc),
            readable: Vec::new(alloc),
        })
    }

    // Carries a request to the daemon and the answer back.
    #[tactic(auto, using(fuse_device::proofs::Answering::device_step_fits), unfolding(crate::specs::Queue::carried, crate::specs::Queue::given_up))]
    pub(crate) fn carry<F: FileBoard, M: MapBoard>(
        &mut self,
        alloc: Global,
        daemon: &mut Daemon,
        readable: &[u8],
        room: u32,
        files: &mut F,
        map: &mut M,
    ) -> Result<Blob, WireError>
        requires readable { length readable.now ≤ max_part }
        requires room { room ≤ max_part }
        requires boards { CanStep daemon.old (F.board files.old) (M.map map.old) readable.now }
        ensures { Carries (host self.old (world daemon.old (F.board files.old) (M.map map.old)))
            (sending readable.now room) result
            (host self.new (world daemon.new (F.board files.new) (M.map map.new))) }
    {
        let sides = &mut self.sides;
        let room = sides.bring(alloc, &mut self.chain, &mut self.readable, readable, room)?;
        let answer = daemon.serve_chain(alloc, &self.readable, room, files, map);
        Ok(sides.bring_back(&self.chain, answer, room)?)
    }

    // The same to a daemon that stays as it is, which serves the request in the turn of its file.
    #[tactic(auto, unfolding(crate::specs::Queue::carried, crate::specs::Queue::given_up))]
    pub(crate) fn carry_in_turn<R: Wait, F: FileTurns, M: MapBoard>(
        &mut self,
        rt: &R,
        alloc: Global,
        daemon: &Daemon,
        readable: &[u8],
        room: u32,
        files: &mut F,
        map: &mut M,
    ) -> Result<Blob, WireError>
        requires readable { length readable.now ≤ max_part }
        requires room { room ≤ max_part }
        requires boards { CanShare daemon.now (boards (F.FileBoard.board files.old) (M.map map.old)) }
        ensures { CarriesInTurn (host self.old (world daemon.now (F.FileBoard.board files.old) (M.map map.old)))
            (sending readable.now room) result
            (host self.new (world daemon.now (F.FileBoard.board files.new) (M.map map.new))) }
    {
        let sides = &mut self.sides;
        let room = sides.bring(alloc, &mut self.chain, &mut self.readable, readable, room)?;
        let served = serve_in_turn(rt, alloc, daemon, &self.readable, room, files, map);
        Ok(sides.bring_back(&self.chain, served, room)?)
    }
}
