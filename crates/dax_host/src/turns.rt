ghost use Rattle.std.specs.Prelude.{◌≡◌, ◌≤◌, length, None, Some};
ghost use Rattle.plain_file.specs.Limits.{max_part};
ghost use Rattle.fuse_device.specs.DataSteps.{named_file};
ghost use Rattle.fuse_device.specs.Promises.{world};
ghost use Rattle.guest_wire.specs.Wires.{boards, sending, CanShare};
ghost use Rattle.dax_host.specs.InTurn.{ServesInTurn};

use daemon_core::Daemon;
use page_map::MapBoard;
use plain_file::{Blob, FileBoard, FileTurns, Memory};
use std::alloc::Global;
use std::sync::Wait;

// Serves a request in the turn of the file that it names.
fn serve_named<R: Wait, F: FileTurns, M: MapBoard>(
    rt: &R,
    alloc: Global,
    daemon: &Daemon,
    file: u32,
    readable: &[u8],
    room: u32,
    files: &mut F,
    map: &mut M,
) -> Result<Blob, Memory>
    requires within { length readable.now ≤ max_part }
    requires boards { CanShare daemon.now (boards (F.FileBoard.board files.old) (M.map map.old)) }
    requires named { named_file daemon.now readable.now ≡ Some file }
    ensures { ServesInTurn (world daemon.now (F.FileBoard.board files.old) (M.map map.old)) (sending readable.now room) result (world daemon.now (F.FileBoard.board files.new) (M.map map.new)) }
{
    files.enter(rt, file);
    let answer = daemon.serve_chain_data(alloc, readable, room, files, map);
    files.leave(file);
    answer
}

// Serves a request that names no file.
fn serve_alone<F: FileBoard, M: MapBoard>(
    alloc: Global,
    daemon: &Daemon,
    readable: &[u8],
    room: u32,
    files: &mut F,
    map: &mut M,
) -> Result<Blob, Memory>
    requires within { length readable.now ≤ max_part }
    requires boards { CanShare daemon.now (boards (F.board files.old) (M.map map.old)) }
    requires named { named_file daemon.now readable.now ≡ None }
    ensures { ServesInTurn (world daemon.now (F.board files.old) (M.map map.old)) (sending readable.now room) result (world daemon.now (F.board files.new) (M.map map.new)) }
{
    daemon.serve_chain_data(alloc, readable, room, files, map)
}

// Serves a request in the turn of the file that it names, if it names one.
pub(crate) fn serve_in_turn<R: Wait, F: FileTurns, M: MapBoard>(
    rt: &R,
    alloc: Global,
    daemon: &Daemon,
    readable: &[u8],
    room: u32,
    files: &mut F,
    map: &mut M,
) -> Result<Blob, Memory>
    requires within { length readable.now ≤ max_part }
    requires boards { CanShare daemon.now (boards (F.FileBoard.board files.old) (M.map map.old)) }
    ensures { ServesInTurn (world daemon.now (F.FileBoard.board files.old) (M.map map.old)) (sending readable.now room) result (world daemon.now (F.FileBoard.board files.new) (M.map map.new)) }
{
    match daemon.named_file(readable) {
        Some(file) => serve_named(rt, alloc, daemon, file, readable, room, files, map),
        None => serve_alone(alloc, daemon, readable, room, files, map),
    }
}
