ghost use Rattle.std.specs.Prelude.{◌≡◌, ◌≤◌, ℕ, List, Result, length, true};
ghost use Rattle.guest_wire.specs.declared.wires.WireError.{WireError};
ghost use Rattle.plain_file.specs.Limits.{max_part};
ghost use Rattle.guest_wire.specs.Wires.{WireView, Boards, Sent, boards, sending, world_at, CanSubmit, KeepsWire, Honest, HasCause};
ghost use Rattle.guest_wire.specs.Keeps.{KeepsBoards};

use page_map::MapBoard;
use plain_file::{Blob, FileBoard, Memory};
use std::alloc::Global;
use std::sync::Wait;
use thiserror::Error;

/// Why a wire gave no answer.
#[derive(Clone, Copy, Debug, PartialEq, Eq, Error)]
pub enum WireError {
    /// The wire failed.
    #[error("the wire failed")]
    Fault,
    /// An allocation was refused.
    #[error("out of memory")]
    Memory,
}

impl From<Memory> for WireError {
    ghost use Rattle.guest_wire.specs.declared.wires.WireError.TheVariants as errors;

    ghost from_gives = { λ _ e. e ≡ errors.Memory };

    fn from(_: Memory) -> WireError {
        WireError::Memory
    }
}

/// Why a request wasn't answered by a success.
#[derive(Debug, Drop, PartialEq, Eq, Error)]
pub enum WireRefusal {
    /// The bytes received are an error's reply to the request.
    #[error("error {number}")]
    Errno {
        /// The error's number, from 1 to 4095.
        number: i32,
    },
    /// The bytes received are no reply to the request: they don't decode, have another request's
    /// number, or are more than the room.
    #[error("no reply to the request")]
    BadReply {
        /// The bytes received.
        bytes: Blob,
    },
    /// The wire failed.
    #[error("the wire failed")]
    WireFault,
    /// An allocation was refused. The request may have been carried out.
    #[error("out of memory")]
    Memory,
}

impl From<Memory> for WireRefusal {
    ghost use Rattle.guest_wire.specs.declared.wires.WireRefusal.TheVariants as refusals;

    ghost from_gives = { λ _ e. e ≡ refusals.Memory };

    fn from(_: Memory) -> WireRefusal {
        WireRefusal::Memory
    }
}

/// What carries a request from a guest to a device, and the answer back.
///
/// `wire` is what a wire means: whether it is honest, the table that it stands over if any, how often
/// it failed, and of an honest wire what its daemon holds, and whether the daemon stays as it is. `gives`
/// is a relation between the wire and the boards before a submit, what was submitted, what came of it,
/// and the wire and the boards after it. Where a contract above speaks of bytes received, it means bytes
/// that stand in `gives` for a request that was sent in that call.
pub trait Wire<F: FileBoard, M: MapBoard> {
    ghost wire: { Self → WireView };

    ghost gives: { Self → Boards → Sent → Result (List ℕ) WireError → Self → Boards → Type 0 };

    /// Submits a request: `readable` are its bytes, and `room` says how many bytes may be answered;
    /// both parts have at most `MAX_PART` bytes. Where the wire is honest, the boards serve the
    /// request: for a wire to the whole daemon as `Daemon::serve_chain` asks for, and for one to a
    /// daemon that stays as it is each made file is on the board of files, the map has as many pages as
    /// the daemon, and no turn is had.
    ///
    /// What comes of it stands in what the wire gives. An honest wire to the whole daemon answers and
    /// leaves the device's step. One to a daemon that stays as it is takes the turn of the file that the
    /// request names, gets to see others' entries, makes that daemon's step, and gives the turn back.
    /// Whatever is answered, the wire is honest or not as before and stands over the same, and the boards
    /// keep what `specs/Keeps` says: their marks and what they have in hand, their files with first
    /// contents, leased sizes and refused bars, their pages, logs, looks and counts. Histories and notes
    /// only grow, but that a note without an upper end may get one.
    ///
    /// A wire may wait, for a turn or for its device.
    ///
    /// # Errors
    ///
    /// `Fault` comes only where the wire's count of faults rose or stands at its last value, and
    /// never over an honest wire. After `Memory` the request may have been carried out; over an
    /// honest wire as its daemon's step, or not at all.
    fn submit<R: Wait>(
        &mut self,
        rt: &R,
        alloc: Global,
        readable: &[u8],
        room: u32,
        files: &mut F,
        map: &mut M,
    ) -> Result<Blob, WireError>
        requires readable { length readable.now ≤ max_part }
        requires room { room ≤ max_part }
        requires boards { CanSubmit (wire self.old) (boards (F.board files.old) (M.map map.old))
            readable.now }
        ensures given { gives self.old (boards (F.board files.old) (M.map map.old))
            (sending readable.now room) result
            self.new (boards (F.board files.new) (M.map map.new)) }
        ensures honest { (wire self.old).honest ≡ true →
            Honest (wire self.old)
            (world_at (wire self.old) (boards (F.board files.old) (M.map map.old)))
            (sending readable.now room) result
            (world_at (wire self.new) (boards (F.board files.new) (M.map map.new))) }
        ensures fault { HasCause (wire self.old).faults result (wire self.new).faults }
        ensures wire { KeepsWire (wire self.old) (wire self.new) }
        ensures boards { KeepsBoards (boards (F.board files.old) (M.map map.old))
            (boards (F.board files.new) (M.map map.new)) };
}
