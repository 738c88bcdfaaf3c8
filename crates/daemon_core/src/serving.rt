ghost use Rattle.std.specs.Prelude.{◌≡◌, length, true, IfOk};
ghost use Rattle.fuse_codec.specs.Grammar.{is_bounded};
ghost use Rattle.fuse_device.specs.Requests.{answered, served};
ghost use Rattle.fuse_device.specs.Steps.{wanted_room};
ghost use Rattle.fuse_device.specs.Promises.{Gives, IsWithin, CanServe, world};

use crate::daemon::Daemon;
use fuse_codec::{Message, Reply, Request};
use fuse_device::{Refused, is_forget, is_init};
use fuse_wire::Errno;
use page_map::MapBoard;
use plain_file::FileBoard;
use std::alloc::Global;

impl Daemon {
    // Any request, once the session is started.
    #[tactic(auto, using(fuse_device::proofs::DataLaws::serves_data), unfolding(fuse_device::specs::Requests::answered, fuse_device::specs::Promises::Needs, fuse_device::specs::DataSteps::is_data, fuse_codec::specs::Grammar::is_bounded, fuse_codec::specs::Grammar::kind_of, fuse_codec::specs::Grammar::asked, fuse_codec::specs::Grammar::form_room, fuse_codec::specs::Opcodes::reply_form))]
    fn answer<F: FileBoard, M: MapBoard>(
        &mut self,
        alloc: Global,
        node: u64,
        body: Request,
        files: &mut F,
        map: &mut M,
    ) -> Result<Reply, Refused>
        requires bounded { is_bounded body ≡ true }
        requires boards { CanServe self.old (F.board files.old) (M.map map.old) body }
        ensures answer { Gives (world self.old (F.board files.old) (M.map map.old)) (answered (world self.old (F.board files.old) (M.map map.old)) node body) result (world self.new (F.board files.new) (M.map map.new)) }
        ensures room { IfOk result (λ reply. IsWithin (wanted_room body) reply) }
        ensures files { length (F.board files.new).files ≡ length (F.board files.old).files }
        ensures pages { length (M.map map.new).table ≡ length (M.map map.old).table }
    {
        match body {
            Request::Lookup { name } => self.lookup(node, name.as_slice(), files),
            Request::Forget { nlookup } => self.forget(node, nlookup),
            Request::Unlink { name } => self.unlink(node, name.as_slice()),
            Request::OpenFile(_) => self.open_file(node),
            Request::Release(r) => self.release(node, r.fh),
            Request::Init(r) => self.init(&r),
            Request::OpenDir(_) => self.open_dir(node),
            Request::ReadDir(r) => self.read_dir(alloc, node, &r),
            Request::ReleaseDir(r) => self.release_dir(node, r.fh),
            Request::Create { head, name } => self.create(node, &head, name, files),
            Request::Destroy => self.destroy(map),
            Request::BatchForget { ones } => self.batch_forget(ones.as_slice()),
            Request::Fallocate(r) => self.fallocate(node, r.fh),
            body => self.answer_data(alloc, node, body, files, map),
        }
    }

    /// Serves one request, that of Linux uapi `fuse.h`, protocol 7.38, and gives its reply. What each
    /// request means is `served` of `specs/Requests`. A FORGET and a BATCH_FORGET, which have no
    /// reply, give `Reply::Done`.
    ///
    /// The message is one that bytes can say, as `Message::fits` tells. The map has as many pages as
    /// the daemon, and each made file is on the board of files, ready. For a CREATE while fewer than
    /// 16 files are made, the board has the next file too, ready. For a DESTROY the map lets the
    /// whole window be cleared.
    ///
    /// # Errors
    ///
    /// `Errno` is the error that the request is answered: `EIO` where the session isn't started and
    /// the request is neither an INIT nor a forget, else the first check of the request that fails.
    /// `Memory` comes where an allocation was refused. After either the daemon, the files and the map
    /// are as they were.
    #[tactic(auto, unfolding(fuse_device::specs::Requests::served, fuse_device::specs::Requests::is_forget, fuse_codec::specs::Grammar::kind_of, fuse_codec::specs::Grammar::asked, fuse_codec::specs::Grammar::form_room, fuse_codec::specs::Opcodes::reply_form, fuse_codec::specs::Replies::reply_parts, fuse_codec::specs::Replies::is_reply))]
    pub fn serve<F: FileBoard, M: MapBoard>(
        &mut self,
        alloc: Global,
        message: Message,
        files: &mut F,
        map: &mut M,
    ) -> Result<Reply, Refused>
        requires bounded { is_bounded message.body ≡ true }
        requires boards { CanServe self.old (F.board files.old) (M.map map.old) message.body }
        ensures answer { Gives (world self.old (F.board files.old) (M.map map.old)) (served (world self.old (F.board files.old) (M.map map.old)) message) result (world self.new (F.board files.new) (M.map map.new)) }
        ensures room { IfOk result (λ reply. IsWithin (wanted_room message.body) reply) }
        ensures files { length (F.board files.new).files ≡ length (F.board files.old).files }
        ensures pages { length (M.map map.new).table ≡ length (M.map map.old).table }
    {
        let Message { head, body } = message;
        if self.is_started() || is_init(&body) {
            return self.answer(alloc, head.nodeid, body, files, map);
        }
        if is_forget(&body) {
            return Ok(Reply::Done);
        }
        Err(Refused::Errno(Errno::EIO))
    }
}
