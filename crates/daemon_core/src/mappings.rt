ghost use Rattle.std.specs.Prelude.{◌≡◌, length, IfOk};
ghost use Rattle.plain_file.specs.Board.{BoardView};
ghost use Rattle.fuse_device.specs.Requests.{setup, remove, destroy};
ghost use Rattle.fuse_device.specs.Promises.{Gives, IsWithin, MayClearAll, world};

use crate::daemon::Daemon;
use fuse_codec::Reply;
use fuse_device::{
    Refused, all_clear, all_whole, clear_all, clear_window, is_bad_setup, is_past, span_of,
};
use fuse_wire::{Errno, RemoveOne, SetupIn};
use page_map::MapBoard;

impl Daemon {
    // SETUPMAPPING.
    #[tactic(auto, using(fuse_device::proofs::Clears::painted_len), unfolding(fuse_device::specs::Requests::setup, fuse_codec::specs::Replies::reply_parts, fuse_codec::specs::Replies::is_reply))]
    pub(crate) fn setup<M: MapBoard>(
        &self,
        node: u64,
        r: &SetupIn,
        map: &mut M,
    ) -> Result<Reply, Refused>
        requires pages { length (M.map map.old).table ≡ self.now.pages }
        ensures answer { (files : BoardView) → Gives (world self.now files (M.map map.old)) (setup (world self.now files (M.map map.old)) node r.now) result (world self.now files (M.map map.new)) }
        ensures room { IfOk result (λ reply. IsWithin 16 reply) }
        ensures pages { length (M.map map.new).table ≡ length (M.map map.old).table }
    {
        if !self.is_known(node) {
            return Err(Refused::Errno(Errno::ENOENT));
        }
        if node == 1 {
            return Err(Refused::Errno(Errno::EISDIR));
        }
        if r.fh != u64::MAX && !self.is_handle(r.fh, node) {
            return Err(Refused::Errno(Errno::EBADF));
        }
        if is_past(r.foffset, r.len) {
            return Err(Refused::Errno(Errno::EFBIG));
        }
        if is_bad_setup(self.pages(), r) {
            return Err(Refused::Errno(Errno::EINVAL));
        }
        let span = span_of(node, r);
        if !map.may_set(&span) {
            return Err(Refused::Errno(Errno::EBUSY));
        }
        map.set(&span);
        Ok(Reply::Done)
    }

    // REMOVEMAPPING. All intervals are judged before one is cleared.
    #[tactic(auto, unfolding(fuse_device::specs::Requests::remove, fuse_codec::specs::Replies::reply_parts, fuse_codec::specs::Replies::is_reply))]
    pub(crate) fn remove<M: MapBoard>(
        &self,
        ones: &[RemoveOne],
        map: &mut M,
    ) -> Result<Reply, Refused>
        requires pages { length (M.map map.old).table ≡ self.now.pages }
        ensures answer { (files : BoardView) → Gives (world self.now files (M.map map.old)) (remove (world self.now files (M.map map.old)) ones.now) result (world self.now files (M.map map.new)) }
        ensures room { IfOk result (λ reply. IsWithin 16 reply) }
        ensures pages { length (M.map map.new).table ≡ length (M.map map.old).table }
    {
        if !all_whole(self.pages(), ones) {
            return Err(Refused::Errno(Errno::EINVAL));
        }
        if !all_clear(map, ones) {
            return Err(Refused::Errno(Errno::EBUSY));
        }
        clear_all(map, ones);
        Ok(Reply::Done)
    }

    // DESTROY.
    #[tactic(auto, unfolding(fuse_device::specs::Requests::destroy, fuse_codec::specs::Replies::reply_parts, fuse_codec::specs::Replies::is_reply))]
    pub(crate) fn destroy<M: MapBoard>(&mut self, map: &mut M) -> Result<Reply, Refused>
        requires pages { length (M.map map.old).table ≡ self.old.pages }
        requires may { MayClearAll self.old (M.map map.old) }
        ensures answer { (files : BoardView) → Gives (world self.old files (M.map map.old)) (destroy (world self.old files (M.map map.old))) result (world self.new files (M.map map.new)) }
        ensures room { IfOk result (λ reply. IsWithin 16 reply) }
        ensures pages { length (M.map map.new).table ≡ length (M.map map.old).table }
    {
        clear_window(self.pages(), map);
        self.end();
        Ok(Reply::Done)
    }
}
