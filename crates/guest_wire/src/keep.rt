ghost use Rattle.std.specs.Prelude.{◌≡◌, ◌≤◌, [], length, true};
ghost use Rattle.plain_file.specs.Limits.{max_part};
ghost use Rattle.guest_wire.specs.Wires.{boards, sending, world_at, CanSubmit, Honest, HasCause, KeepsWire};
ghost use Rattle.guest_wire.specs.Keeps.{KeepsBoards};
ghost use Rattle.guest_wire.specs.Kept.{Passes};

use crate::wires::{Wire, WireError};
use page_map::MapBoard;
use plain_file::{Blob, FileBoard, List};
use std::alloc::Global;
use std::marker::Model;
use std::sync::Wait;

/// A wire that passes each request on to another wire, and keeps it. It is honest where the other one
/// is, stands over the same, and has its count of faults and its daemon.
#[derive(Debug, Drop)]
pub struct KeepWire<W> {
    inner: W,
    requests: List<Blob>,
}

impl<W> Model for KeepWire<W> {
    ghost use Rattle.guest_wire.specs.Kept.{KeepView};

    ghost Value = { KeepView W };

    ghost view = { λ k. record { inner = k.inner; requests = k.requests } };
}

impl<W> KeepWire<W> {
    /// A wire that passes requests on to `inner`, and that kept none yet.
    pub fn new(alloc: Global, inner: W) -> KeepWire<W>
        ensures { result ≡ record { inner = inner; requests = [] } }
    {
        KeepWire {
            inner,
            requests: List::new(alloc),
        }
    }

    /// The readable parts that were submitted, in their order.
    pub fn requests(&self) -> &List<Blob>
        ensures { result.now ≡ self.now.requests }
    {
        &self.requests
    }
}

impl<F: FileBoard, M: MapBoard, W: Wire<F, M>> Wire<F, M> for KeepWire<W> {
    ghost wire = { λ k. W.wire k.inner };

    ghost gives = { λ before old sent result after new. Passes W.gives before old sent result after new };

    /// Keeps the request, then submits it to the other wire. `Memory` comes also where there is no
    /// room to keep it; nothing was submitted then.
    fn submit<R: Wait>(
        &mut self,
        rt: &R,
        alloc: Global,
        readable: &[u8],
        room: u32,
        files: &mut F,
        map: &mut M,
    ) -> Result<Blob, WireError>
        requires readable { length readable.now ≤ max_part }
        requires room { room ≤ max_part }
        requires boards { CanSubmit (W.wire self.old.inner)
            (boards (F.board files.old) (M.map map.old)) readable.now }
        ensures given { Passes W.gives self.old (boards (F.board files.old) (M.map map.old))
            (sending readable.now room) result
            self.new (boards (F.board files.new) (M.map map.new)) }
        ensures honest { (W.wire self.old.inner).honest ≡ true →
            Honest (W.wire self.old.inner)
            (world_at (W.wire self.old.inner) (boards (F.board files.old) (M.map map.old)))
            (sending readable.now room) result
            (world_at (W.wire self.new.inner) (boards (F.board files.new) (M.map map.new))) }
        ensures fault { HasCause (W.wire self.old.inner).faults result
            (W.wire self.new.inner).faults }
        ensures wire { KeepsWire (W.wire self.old.inner) (W.wire self.new.inner) }
        ensures boards { KeepsBoards (boards (F.board files.old) (M.map map.old))
            (boards (F.board files.new) (M.map map.new)) }
    {
        let copy = Blob::copy_of(alloc, readable)?;
        self.requests.push(copy)?;
        self.inner.submit(rt, alloc, readable, room, files, map)
    }
}
