ghost use Rattle.std.specs.Prelude.{◌≡◌, ◌+◌, length, IfOk};
ghost use Rattle.page_map.specs.Board.{MapView};
ghost use Rattle.fuse_device.specs.Requests.{read, write};
ghost use Rattle.fuse_device.specs.Promises.{Gives, IsWithin, world};
ghost use Rattle.fuse_device.specs.DataSteps.{HasFile};

use crate::daemon::Daemon;
use fuse_codec::{MAX_TRANSFER, Reply};
use fuse_device::{Refused, bytes_reply, is_past};
use fuse_wire::{Errno, ReadIn, WriteIn, WriteOut};
use plain_file::{Blob, BoardRefusal, FileBoard, Op};
use std::alloc::Global;

impl Daemon {
    // READ.
    #[tactic(auto, unfolding(fuse_device::specs::Requests::read, fuse_device::specs::Requests::bytes_reply, plain_file::specs::File::reach, plain_file::specs::File::answer, plain_file::specs::Board::file_answer, fuse_codec::specs::Replies::reply_parts, fuse_codec::specs::Replies::is_reply))]
    pub(crate) fn read<F: FileBoard>(
        &self,
        alloc: Global,
        node: u64,
        r: &ReadIn,
        files: &mut F,
    ) -> Result<Reply, Refused>
        requires files { HasFile self.now (F.board files.old) node }
        ensures answer { (map : MapView) → Gives (world self.now (F.board files.old) map) (read (world self.now (F.board files.old) map) node r.now) result (world self.now (F.board files.new) map) }
        ensures room { IfOk result (λ reply. IsWithin (16 + r.now.size) reply) }
        ensures files { length (F.board files.new).files ≡ length (F.board files.old).files }
    {
        if !self.is_known(node) {
            return Err(Refused::Errno(Errno::ENOENT));
        }
        if node == 1 {
            return Err(Refused::Errno(Errno::EISDIR));
        }
        if !self.is_handle(r.fh, node) {
            return Err(Refused::Errno(Errno::EBADF));
        }
        if r.size > MAX_TRANSFER {
            return Err(Refused::Errno(Errno::EINVAL));
        }
        let op = Op::Read {
            off: r.offset,
            len: r.size as u64,
        };
        match files.apply(alloc, self.file_of(node), op) {
            Ok(applied) => Ok(bytes_reply(alloc, applied.answer)),
            Err(BoardRefusal::Unbarred { .. }) => Err(Refused::Errno(Errno::EBUSY)),
            Err(BoardRefusal::Memory) => Err(Refused::Memory),
        }
    }

    // WRITE of as many bytes as it says.
    #[tactic(auto, using(fuse_codec::proofs::CleanReplies::body_sizes), unfolding(fuse_device::specs::Requests::write, plain_file::specs::File::reach, fuse_codec::specs::Replies::reply_parts, fuse_codec::specs::Replies::is_reply))]
    pub(crate) fn write<F: FileBoard>(
        &self,
        alloc: Global,
        node: u64,
        r: &WriteIn,
        bytes: Blob,
        files: &mut F,
    ) -> Result<Reply, Refused>
        requires sized { length bytes ≡ r.now.size }
        requires files { HasFile self.now (F.board files.old) node }
        ensures answer { (map : MapView) → Gives (world self.now (F.board files.old) map) (write (world self.now (F.board files.old) map) node r.now bytes) result (world self.now (F.board files.new) map) }
        ensures room { IfOk result (λ reply. IsWithin 24 reply) }
        ensures files { length (F.board files.new).files ≡ length (F.board files.old).files }
    {
        if !self.is_known(node) {
            return Err(Refused::Errno(Errno::ENOENT));
        }
        if node == 1 {
            return Err(Refused::Errno(Errno::EISDIR));
        }
        if !self.is_handle(r.fh, node) {
            return Err(Refused::Errno(Errno::EBADF));
        }
        if is_past(r.offset, r.size as u64) {
            return Err(Refused::Errno(Errno::EFBIG));
        }
        let op = Op::Write {
            off: r.offset,
            bytes,
        };
        match files.apply(alloc, self.file_of(node), op) {
            Ok(_) => Ok(Reply::Wrote(WriteOut { size: r.size })),
            Err(BoardRefusal::Unbarred { .. }) => Err(Refused::Errno(Errno::EBUSY)),
            Err(BoardRefusal::Memory) => Err(Refused::Memory),
        }
    }
}
