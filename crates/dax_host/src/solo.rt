ghost use Rattle.std.specs.Prelude.{◌≡◌, true, false, None, IfOk};
ghost use Rattle.dax_host.specs.Queue.{fresh_queue};
ghost use Rattle.dax_host.specs.Solo.{solo_wire, solo_queue, SoloGives};

use crate::queue::Queue;
use daemon_core::Daemon;
use guest_wire::{Wire, WireError};
use page_map::MapBoard;
use plain_file::{Blob, FileBoard, Memory};
use std::alloc::Global;
use std::sync::Wait;

/// A wire to a daemon of its own, in the caller's thread: each request goes through a split virtqueue (VIRTIO
/// 1.2 section 2.7) and back. It is honest, never fails, and doesn't wait. [`into_daemon`](SoloWire::into_daemon)
/// gives the daemon back.
///
/// What it gives for a request says what becomes of the queue's memory and of both its sides: the request
/// was offered, popped, answered by the bytes of the daemon's step, pushed and taken back. The queue has as
/// much room as the requests wanted that went through it: one that doesn't find room for both of its parts
/// goes through a new one of as many descriptors, with 8,192, 65,536 or
/// [`MAX_PART`](plain_file::MAX_PART) bytes of room for either part, the least that does, in which nothing
/// was offered before.
#[derive(Drop)]
pub struct SoloWire {
    daemon: Daemon,
    queue: Queue,
}

impl SoloWire {
    /// A wire to this daemon, with a queue of its own: it has four descriptors and 8,192 bytes of room for
    /// either part of a request, nothing was offered yet, and its memory, of 16,512 bytes, is all 0.
    /// `Memory` comes where an allocation was refused.
    pub fn new(alloc: Global, daemon: Daemon) -> Result<SoloWire, Memory>
        ensures wire { IfOk result (λ w. solo_wire w ≡ record { honest = true; over = None; faults = 0; stays = false; state = daemon }) }
        ensures queue { IfOk result (λ w. solo_queue w ≡ fresh_queue 4 8192) }
    {
        let queue = Queue::new(alloc)?;
        Ok(SoloWire { daemon, queue })
    }

    /// The daemon, as the requests left it.
    pub fn into_daemon(self) -> Daemon
        ensures { result ≡ (solo_wire self).state }
    {
        self.daemon
    }
}

impl<F: FileBoard, M: MapBoard> Wire<F, M> for SoloWire {
    ghost wire = { solo_wire };

    ghost gives = { SoloGives };

    fn submit<R: Wait>(
        &mut self,
        _rt: &R,
        alloc: Global,
        readable: &[u8],
        room: u32,
        files: &mut F,
        map: &mut M,
    ) -> Result<Blob, WireError> {
        self.queue
            .carry(alloc, &mut self.daemon, readable, room, files, map)
    }
}
