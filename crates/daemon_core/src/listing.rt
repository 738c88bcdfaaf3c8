ghost use Rattle.std.specs.Prelude.{◌≡◌, ◌≤◌, ◌+◌, length, IfOk};
ghost use Rattle.page_map.specs.Board.{MapView};
ghost use Rattle.plain_file.specs.Board.{BoardView};
ghost use Rattle.fuse_device.specs.Entries.{entries, listed};
ghost use Rattle.fuse_device.specs.Requests.{read_dir};
ghost use Rattle.fuse_device.specs.Promises.{Gives, IsWithin, world};

use crate::daemon::Daemon;
use fuse_codec::{MAX_TRANSFER, Reply, put_dirents};
use fuse_device::{Refused, numbered_entries, pass_over};
use fuse_wire::{Errno, ReadIn};
use plain_file::{Blob, List, Memory};
use std::alloc::Global;

impl Daemon {
    // READDIR.
    #[tactic(auto, unfolding(fuse_device::specs::Requests::read_dir, fuse_codec::specs::Replies::reply_parts, fuse_codec::specs::Replies::is_reply))]
    pub(crate) fn read_dir(&self, alloc: Global, node: u64, r: &ReadIn) -> Result<Reply, Refused>
        ensures answer { (files : BoardView) (map : MapView) → Gives (world self.now files map) (read_dir (world self.now files map) node r.now) result (world self.now files map) }
        ensures room { IfOk result (λ reply. IsWithin (16 + r.now.size) reply) }
    {
        if !self.is_known(node) {
            return Err(Refused::Errno(Errno::ENOENT));
        }
        if node != 1 {
            return Err(Refused::Errno(Errno::ENOTDIR));
        }
        if !self.is_handle(r.fh, node) {
            return Err(Refused::Errno(Errno::EBADF));
        }
        if r.size > MAX_TRANSFER {
            return Err(Refused::Errno(Errno::EINVAL));
        }
        let bytes = self.listed(alloc, r.offset, r.size)?;
        Ok(Reply::Bytes(bytes))
    }

    // The entries after so many, as many as fit.
    #[tactic(auto, unfolding(fuse_device::specs::Entries::entries))]
    fn listed(&self, alloc: Global, offset: u64, size: u32) -> Result<Blob, Memory>
        ensures value { IfOk result (λ b. b ≡ listed self.now offset size) }
        ensures within { IfOk result (λ b. length b ≤ size) }
    {
        let mut entries = numbered_entries(alloc, self.made())?;
        pass_over(&mut entries, offset);
        put_dirents(alloc, &List::from_vec(entries), size)
    }
}
