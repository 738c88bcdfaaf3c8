ghost use Rattle.std.specs.Prelude.{◌≡◌, ◌≢◌, ◌≤◌, length, true, IfOk};
ghost use Rattle.page_map.specs.Board.{MapView};
ghost use Rattle.plain_file.specs.File.{max_file, reach};
ghost use Rattle.plain_file.specs.Board.{IsReady};
ghost use Rattle.fuse_device.specs.State.{is_made};
ghost use Rattle.fuse_device.specs.Checks.{is_known};
ghost use Rattle.fuse_device.specs.Requests.{applies, attr_reply, attr_of, resizes, getattr, setattr};
ghost use Rattle.fuse_device.specs.Promises.{Gives, IsWithin, world};
ghost use Rattle.fuse_device.specs.DataSteps.{HasFile};

use crate::daemon::Daemon;
use fuse_codec::Reply;
use fuse_device::{Refused, attr_out_of, dir_attr, has_flag, size_in};
use fuse_wire::{Errno, GetattrIn, SetattrIn};
use plain_file::{BoardRefusal, FileBoard, MAX_FILE, Op};
use std::alloc::Global;

impl Daemon {
    // An operation that answers a file's size, then the file's attributes.
    #[tactic(auto, using(fuse_codec::proofs::CleanReplies::body_sizes), unfolding(fuse_codec::specs::Replies::reply_parts, fuse_codec::specs::Replies::is_reply))]
    fn sizes<F: FileBoard>(
        &self,
        alloc: Global,
        node: u64,
        op: Op,
        files: &mut F,
    ) -> Result<Reply, Refused>
        requires known { is_known self.now node ≡ true }
        requires file { node ≢ 1 }
        requires files { HasFile self.now (F.board files.old) node }
        requires fits { reach op ≤ max_file }
        ensures answer { (map : MapView) → Gives (world self.now (F.board files.old) map) (applies (world self.now (F.board files.old) map) node op (attr_reply self.now node)) result (world self.now (F.board files.new) map) }
        ensures room { IfOk result (λ reply. IsWithin 120 reply) }
        ensures files { length (F.board files.new).files ≡ length (F.board files.old).files }
    {
        match files.apply(alloc, self.file_of(node), op) {
            Ok(applied) => {
                let attr = self.file_attr(node, size_in(&applied.answer));
                Ok(Reply::Attr(attr_out_of(attr)))
            }
            Err(BoardRefusal::Unbarred { .. }) => Err(Refused::Errno(Errno::EBUSY)),
            Err(BoardRefusal::Memory) => Err(Refused::Memory),
        }
    }

    // The attributes of a node.
    #[tactic(auto, using(fuse_codec::proofs::CleanReplies::body_sizes), unfolding(plain_file::specs::File::reach, fuse_codec::specs::Replies::reply_parts, fuse_codec::specs::Replies::is_reply))]
    fn attr_of<F: FileBoard>(
        &self,
        alloc: Global,
        node: u64,
        files: &mut F,
    ) -> Result<Reply, Refused>
        requires known { is_known self.now node ≡ true }
        requires files { HasFile self.now (F.board files.old) node }
        ensures answer { (map : MapView) → Gives (world self.now (F.board files.old) map) (attr_of (world self.now (F.board files.old) map) node) result (world self.now (F.board files.new) map) }
        ensures room { IfOk result (λ reply. IsWithin 120 reply) }
        ensures files { length (F.board files.new).files ≡ length (F.board files.old).files }
    {
        if node == 1 {
            return Ok(Reply::Attr(attr_out_of(dir_attr())));
        }
        self.sizes(alloc, node, Op::Size, files)
    }

    // GETATTR.
    #[tactic(auto, unfolding(fuse_device::specs::Requests::getattr))]
    pub(crate) fn getattr<F: FileBoard>(
        &self,
        alloc: Global,
        node: u64,
        r: &GetattrIn,
        files: &mut F,
    ) -> Result<Reply, Refused>
        requires files { HasFile self.now (F.board files.old) node }
        ensures answer { (map : MapView) → Gives (world self.now (F.board files.old) map) (getattr (world self.now (F.board files.old) map) node r.now) result (world self.now (F.board files.new) map) }
        ensures room { IfOk result (λ reply. IsWithin 120 reply) }
        ensures files { length (F.board files.new).files ≡ length (F.board files.old).files }
    {
        if !self.is_known(node) {
            return Err(Refused::Errno(Errno::ENOENT));
        }
        if has_flag(r.getattr_flags, 1) && !self.is_handle(r.fh, node) {
            return Err(Refused::Errno(Errno::EBADF));
        }
        self.attr_of(alloc, node, files)
    }

    // A file gets a size.
    #[tactic(auto, unfolding(plain_file::specs::File::reach))]
    fn resizes<F: FileBoard>(
        &self,
        alloc: Global,
        node: u64,
        size: u64,
        files: &mut F,
    ) -> Result<Reply, Refused>
        requires known { is_known self.now node ≡ true }
        requires files { HasFile self.now (F.board files.old) node }
        ensures answer { (map : MapView) → Gives (world self.now (F.board files.old) map) (resizes (world self.now (F.board files.old) map) node size) result (world self.now (F.board files.new) map) }
        ensures room { IfOk result (λ reply. IsWithin 120 reply) }
        ensures files { length (F.board files.new).files ≡ length (F.board files.old).files }
    {
        if node == 1 {
            return Err(Refused::Errno(Errno::EISDIR));
        }
        if size > MAX_FILE {
            return Err(Refused::Errno(Errno::EFBIG));
        }
        self.sizes(alloc, node, Op::Truncate { size }, files)
    }

    // SETATTR.
    #[tactic(auto, unfolding(fuse_device::specs::Requests::setattr))]
    pub(crate) fn setattr<F: FileBoard>(
        &self,
        alloc: Global,
        node: u64,
        r: &SetattrIn,
        files: &mut F,
    ) -> Result<Reply, Refused>
        requires files { HasFile self.now (F.board files.old) node }
        ensures answer { (map : MapView) → Gives (world self.now (F.board files.old) map) (setattr (world self.now (F.board files.old) map) node r.now) result (world self.now (F.board files.new) map) }
        ensures room { IfOk result (λ reply. IsWithin 120 reply) }
        ensures files { length (F.board files.new).files ≡ length (F.board files.old).files }
    {
        if !self.is_known(node) {
            return Err(Refused::Errno(Errno::ENOENT));
        }
        if has_flag(r.valid, 64) && !self.is_handle(r.fh, node) {
            return Err(Refused::Errno(Errno::EBADF));
        }
        if has_flag(r.valid, 8) {
            return self.resizes(alloc, node, r.size, files);
        }
        self.attr_of(alloc, node, files)
    }
}
