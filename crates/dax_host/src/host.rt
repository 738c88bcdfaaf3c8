ghost use Rattle.std.specs.Prelude.{◌≡◌, true, None, IfOk};
ghost use Rattle.dax_host.specs.Queue.{fresh_queue};
ghost use Rattle.dax_host.specs.Host.{host_wire, host_queue, HostGives};

use crate::queue::Queue;
use daemon_core::Daemon;
use guest_wire::{Wire, WireError};
use page_map::MapBoard;
use plain_file::{Blob, FileTurns, Memory};
use std::alloc::Global;
use std::sync::Wait;

/// A wire to a daemon that stays as it is, in the caller's thread, which any number of other wires may have
/// too: each request goes through a split virtqueue (VIRTIO 1.2 section 2.7) of this wire's own, to
/// [`Daemon::serve_chain_data`], and back. It is honest and never fails.
///
/// The device takes the turn of the file that a request names when it has gathered the request's bytes, and
/// gives the turn back before it writes the answer. So the wire waits where another guest has the turn,
/// and no turn is had outside of a submit. A request that names no file is served without a turn.
///
/// What it gives for a request says what becomes of the boards in the turn, and of the queue's memory and
/// both its sides: the request was offered, popped, answered by the bytes of the daemon's step, pushed and
/// taken back. After want of memory it also says how far the request had come. The queue grows as that of
/// [`SoloWire`](crate::SoloWire) does.
#[derive(Drop)]
pub struct HostWire<'a> {
    daemon: &'a Daemon,
    queue: Queue,
}

impl<'a> HostWire<'a> {
    /// A wire to this daemon, with a queue of its own: it has four descriptors and 8,192 bytes of room for
    /// either part of a request, nothing was offered yet, and its memory, of 16,512 bytes, is all 0.
    /// `Memory` comes where an allocation was refused.
    pub fn new(alloc: Global, daemon: &'a Daemon) -> Result<HostWire<'a>, Memory>
        ensures wire { IfOk result (λ w. host_wire w ≡ record { honest = true; over = None; faults = 0; stays = true; state = daemon.now }) }
        ensures queue { IfOk result (λ w. host_queue w ≡ fresh_queue 4 8192) }
    {
        let queue = Queue::new(alloc)?;
        Ok(HostWire { daemon, queue })
    }
}

impl<'a, F: FileTurns, M: MapBoard> Wire<F, M> for HostWire<'a> {
    ghost wire = { host_wire };

    ghost gives = { HostGives };

    fn submit<R: Wait>(
        &mut self,
        rt: &R,
        alloc: Global,
        readable: &[u8],
        room: u32,
        files: &mut F,
        map: &mut M,
    ) -> Result<Blob, WireError> {
        self.queue
            .carry_in_turn(rt, alloc, self.daemon, readable, room, files, map)
    }
}
